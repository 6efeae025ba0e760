// The posts of a firmware shop, each a role, and who is directly senior to whom.
use hierarchy::{Edge, Hierarchy};
use rbac::Role;
use std::fmt;

#[derive(Clone, Copy, PartialEq, Eq, Debug)]
pub(crate) enum Post {
    Officer,
    ReleaseLead,
    SecurityLead,
    BuildLead,
    SigningLead,
    ShippingLead,
    Builder,
    BuildContractor,
    Signer,
    Shipper,
    Auditor,
    Guest,
}

// All posts, in the order of their roles' numbers.
pub(crate) const STAFF: [Post; 12] = [
    Post::Officer,
    Post::ReleaseLead,
    Post::SecurityLead,
    Post::BuildLead,
    Post::SigningLead,
    Post::ShippingLead,
    Post::Builder,
    Post::BuildContractor,
    Post::Signer,
    Post::Shipper,
    Post::Auditor,
    Post::Guest,
];

// Senior and junior. The release lead stands over both the builders' and the signers' leads, who both stand over the auditor: a diamond.
const EDGES: [(Post, Post); 14] = [
    (Post::Officer, Post::ReleaseLead),
    (Post::Officer, Post::SecurityLead),
    (Post::ReleaseLead, Post::BuildLead),
    (Post::ReleaseLead, Post::SigningLead),
    (Post::ReleaseLead, Post::ShippingLead),
    (Post::SecurityLead, Post::Guest),
    (Post::BuildLead, Post::Builder),
    (Post::BuildLead, Post::BuildContractor),
    (Post::SigningLead, Post::Signer),
    (Post::ShippingLead, Post::Shipper),
    (Post::Builder, Post::BuildContractor),
    (Post::BuildLead, Post::Auditor),
    (Post::SigningLead, Post::Auditor),
    (Post::ShippingLead, Post::Guest),
];

impl fmt::Display for Post {
    fn fmt<W: fmt::Write>(&self, f: &mut fmt::Formatter<W>) -> fmt::Result {
        f.write_str(match self {
            Post::Officer => "officer",
            Post::ReleaseLead => "release lead",
            Post::SecurityLead => "security lead",
            Post::BuildLead => "build lead",
            Post::SigningLead => "signing lead",
            Post::ShippingLead => "shipping lead",
            Post::Builder => "builder",
            Post::BuildContractor => "build contractor",
            Post::Signer => "signer",
            Post::Shipper => "shipper",
            Post::Auditor => "auditor",
            Post::Guest => "guest",
        })
    }
}

impl From<Post> for Role {
    fn from(post: Post) -> Role {
        Role::modulo(post as usize)
    }
}

// The post of a role; none where nobody of the shop has that role.
pub(crate) fn post_of(role: Role) -> Option<Post> {
    STAFF.get(role.number() as usize).copied()
}

pub(crate) fn hierarchy() -> Hierarchy {
    let mut chart = Hierarchy::new();
    for (senior, junior) in EDGES {
        chart.insert(Edge {
            senior: Role::from(senior),
            junior: Role::from(junior),
        });
    }
    chart
}
