// Lines read and written again, in canonical form.
use grammar::Reader;
use lines::Extra;
use saving::line::write_line;
use texts::line::read_line;

// How long the canonical text of the line is, once it stands in the place; none where the line is refused or the place is too short.
pub(crate) fn rewritten(text: &[u8], place: &mut [u8]) -> Option<usize> {
    let mut r = Reader::new(text, 1);
    let mut extra = Extra::new();
    let change = read_line(&mut r, &mut extra).ok()?;
    write_line(place, change, &extra)
}

#[cfg(test)]
mod tests {
    use crate::rewriting::rewritten;
    use std::test::Fail;

    const LEAST: &[u8] = b"never r1|r2&r3 >= {u1}|{u2}";

    const GROUPED: &[u8] = b"never (r1|r2)&r3|(r4|r5) >= {u1}&({u2}&{})&({u1}|{u2})";

    const MET: &[u8] = b"never ({u1}|{u2})&p3 >= {u3}";

    // Seven pairs of parentheses say no more than none: the six that are written, and the one for which the braces of two users stand.
    #[test]
    fn parentheses_that_say_nothing_are_left_out(rt: HostRuntime) -> Result<(), Fail> {
        let mut place = [0u8; 80];
        let n = rewritten(b"never (((r1)|((r2&r3)))) >= ({u1,u2})", &mut place).ok_or(1)?;
        assert!(rt; place.get(..n).ok_or(2)? == LEAST);
        Ok(())
    }

    // No other way to write these two sets has fewer pairs, so they are written as they were.
    #[test]
    fn parentheses_that_group_stay(rt: HostRuntime) -> Result<(), Fail> {
        let mut place = [0u8; 80];
        let n = rewritten(GROUPED, &mut place).ok_or(1)?;
        assert!(rt; place.get(..n).ok_or(2)? == GROUPED);
        Ok(())
    }

    // Two users in braces are one pair where the set is met with another: the pair is written, and each user in its own braces.
    #[test]
    fn braces_of_two_users_become_one_pair(rt: HostRuntime) -> Result<(), Fail> {
        let mut place = [0u8; 80];
        let n = rewritten(b"never ({u1,u2}&((p3))) >= {u3}", &mut place).ok_or(1)?;
        assert!(rt; place.get(..n).ok_or(2)? == MET);
        Ok(())
    }
}
