// Prints a firmware shop's role hierarchy: each role, the roles it is senior to, and the edges by which they were found.
#![tactic(auto)]

mod shop;

use hierarchy::{Descent, Edge, Hierarchy};
use meaning::ROLES;
use rbac::{Role, RoleSet};
use shop::Post;
use std::io;

fn main(rt: HostRuntime) -> io::Result<()> {
    let chart = shop::hierarchy();
    for post in shop::STAFF {
        entry(&rt, &chart, post)?;
    }
    Ok(())
}

fn entry(rt: &HostRuntime, chart: &Hierarchy, post: Post) -> io::Result<()> {
    let role = Role::from(post);
    let blank = Edge {
        senior: role,
        junior: role,
    };
    let mut list = [blank; ROLES];
    if let Ok(descent) = chart.descend(RoleSet::one(role), &mut list) {
        print_roles(rt, post, descent)?;
        print_edges(rt, &list, descent)?;
    }
    Ok(())
}

fn print_roles(rt: &HostRuntime, post: Post, descent: Descent) -> io::Result<()> {
    let number = Role::from(post).number();
    print!(rt; "r{number} {post} is senior to")?;
    for role in (0..ROLES as u32).filter_map(Role::new) {
        if descent.reached.contains(role) {
            let junior = role.number();
            print!(rt; " r{junior}")?;
        }
    }
    println!(rt; "")
}

fn print_edges(rt: &HostRuntime, list: &[Edge], descent: Descent) -> io::Result<()> {
    for edge in list.iter().take(descent.edges) {
        if let (Some(senior), Some(junior)) = (
            shop::post_of(edge.senior),
            shop::post_of(edge.junior),
        ) {
            println!(rt; "  {senior} over {junior}")?;
        }
    }
    Ok(())
}
