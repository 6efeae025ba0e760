// A question, read.
ghost use Rattle.reading.specs.Posing.{Posed};

use lines::Extra;
use questions::Inquiry;
use texts::Fault;
use texts::alone::read_question;

/// The question that the text poses, or why it is refused.
pub fn read_inquiry(text: &[u8]) -> Result<Inquiry, Fault>
    ensures { Posed text.now result }
{
    let mut extra = Extra::new();
    let kind = read_question(text, &mut extra)?;
    match Inquiry::new(kind, extra.left, extra.right) {
        Some(inquiry) => Ok(inquiry),
        None => unreachable(),
    }
}
