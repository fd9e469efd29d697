// Tests of the crates below through their public calls, beside answers worked out by hand.
#![tactic(auto)]

#[cfg(test)]
mod boards;

#[cfg(test)]
mod tests {
    use book::{Ending, first_line, lines, proofread, read_line};
    use kayles::{Board, Pin, Run};
    use search::{Bound, CallError, Game};
    use std::alloc::{AllocError, Global};
    use std::test::Fail;
    use stones::Stones;

    fn reports(heap: Global, book: &[u8], expected: &str) -> Result<bool, AllocError> {
        let report = proofread(heap, book)?;
        Ok(report.as_str() == expected)
    }

    // The number and the column with which a line is refused.
    fn refused(line: &[u8]) -> Option<(u8, usize)> {
        let refusal = read_line(line).err()?;
        Some((refusal.fault.number(), refusal.column))
    }

    // The board of a line that is accepted.
    fn shown(line: &[u8]) -> Option<Board> {
        read_line(line).ok()?
    }

    #[test]
    fn faults_of_board_lines(rt: HostRuntime) {
        assert_eq!(rt; refused(b"[Kayles \""), Some((2, 9)));
        assert_eq!(rt; refused(b"[Kayles \"]"), Some((2, 10)));
        assert_eq!(rt; refused(b"[Kayles \"x"), Some((2, 10)));
        assert_eq!(rt; refused(b"[Kayles \"X\"] "), Some((2, 13)));
        assert_eq!(rt; refused(b"[Kayles \"X\"]\"]"), Some((8, 11)));
        assert_eq!(rt; refused(b"[Kayles \"Xx\"]"), Some((8, 11)));
        assert_eq!(rt; refused(b"[Kayles \" X\"]"), Some((8, 10)));
        assert_eq!(rt; refused(b"[Kayles \"X\0\"]"), Some((8, 11)));
        assert_eq!(rt; refused(b"[Kayles \"X\xff\"]"), Some((8, 11)));
    }

    #[test]
    fn the_33rd_byte(rt: HostRuntime) {
        assert_eq!(rt;
            refused(b"[Kayles \"XXXXXXXXXXXXXXXXXXXXXXXXXXXXXXXX\"]"),
            None
        );
        assert_eq!(rt;
            refused(b"[Kayles \"XXXXXXXXXXXXXXXXXXXXXXXXXXXXXXXXX\"]"),
            Some((9, 42))
        );
        assert_eq!(rt;
            refused(b"[Kayles \"XXXXXXXXXXXXXXXXXXXXXXXXXXXXXXXXy\"]"),
            Some((9, 42))
        );
        assert_eq!(rt;
            refused(b"[Kayles \"XXXXXXXXXXXXXXXXXXXXXXXXXXXXXXXyX\"]"),
            Some((8, 41))
        );
    }

    #[test]
    fn lines_of_a_book(rt: HostRuntime) -> Result<(), Fail> {
        let heap = rt.alloc();
        assert!(rt; reports(heap, b"", "")?, "empty");
        assert!(rt; reports(heap, b"\r", "")?, "a carriage return alone");
        assert!(rt; reports(heap, b"\n\r\n\0\xff\n", "")?, "lines passed over");
        assert!(rt;
            reports(heap, b" [Kayles \"X\"]\n[kayles \"X\"]\n[Deal \"", "")?,
            "other heads"
        );
        assert!(rt;
            reports(
                heap,
                b"[Kayles \"X\"]",
                "kayles 1\npins 1 standing 1\nruns 1\n",
            )?,
            "no line feed"
        );
        assert!(rt;
            reports(
                heap,
                b"\n[Kayles \"\"]\r\n",
                "kayles 2\npins 0 standing 0\nruns none\n",
            )?,
            "no pins"
        );
        assert!(rt;
            reports(
                heap,
                b"[Kayles \"X\"]\r",
                "kayles 1\npins 1 standing 1\nruns 1\n",
            )?,
            "a return at the end"
        );
        assert!(rt;
            reports(heap, b"[Kayles \"X\"]\r\r\n", "line 1 fault 2 column 13\n")?,
            "two returns"
        );
        assert!(rt;
            reports(
                heap,
                b"[Kayles \"X\"]\r[Kayles \"X\"]",
                "line 1 fault 8 column 11\n",
            )?,
            "a return inside"
        );
        Ok(())
    }

    #[test]
    fn cutting_off_lines(rt: HostRuntime) -> Result<(), Fail> {
        assert!(rt; first_line(b"").is_none());
        let (line, rest) = first_line(b"a\r\r\n\nb").ok_or("no first line")?;
        assert!(rt; line.text == b"a\r".as_slice() && rest == b"\nb".as_slice());
        assert_eq!(rt; line.ending, Ending::ReturnFeed);
        let found = lines(rt.alloc(), b"a\r\r\n\nb")?;
        assert!(rt; found.len() == 3);
        assert!(rt; found[1].text.is_empty() && found[2].text == b"b".as_slice());
        assert_eq!(rt; found[2].ending, Ending::End);
        Ok(())
    }

    #[test]
    fn the_longest_book(rt: HostRuntime) -> Result<(), Fail> {
        let heap = rt.alloc();
        let mut book = vec![in heap; b'\n'; 8180]?;
        book.extend_from_slice(b"[Kayles \".\"]")?;
        assert!(rt;
            reports(
                heap,
                book.as_slice(),
                "kayles 8181\npins 1 standing 0\nruns none\n",
            )?
        );
        book.push(b'\n')?;
        assert!(rt; reports(heap, book.as_slice(), "book fault 12\n")?);
        Ok(())
    }

    // The pins of an accepted board, by number; 0 and 6 are not on it.
    #[test]
    fn pins_of_a_board(rt: HostRuntime) -> Result<(), Fail> {
        let board = shown(b"[Kayles \"X.XX.\"]").ok_or("no board")?;
        assert!(rt; board.len() == 5 && board.standing() == 3);
        assert!(rt; board.stands(1) && !board.stands(2) && board.stands(3) && board.stands(4));
        assert!(rt; !board.stands(0) && !board.stands(5) && !board.stands(6));
        Ok(())
    }

    #[test]
    fn runs_of_a_board(rt: HostRuntime) -> Result<(), Fail> {
        let one = Board::empty().with(Pin::Standing).ok_or("full")?;
        assert!(rt; one.next_run(2).is_none());
        assert_eq!(rt; one.next_run(0), Some(Run { first: 1, len: 1 }));
        let board = shown(b"[Kayles \".XX.XXX\"]").ok_or("no board")?;
        assert_eq!(rt; board.next_run(3), Some(Run { first: 5, len: 3 }));
        let mut runs = board.runs();
        assert_eq!(rt; runs.next(), Some(Run { first: 2, len: 2 }));
        assert_eq!(rt; runs.next(), Some(Run { first: 5, len: 3 }));
        assert!(rt; runs.next().is_none());
        Ok(())
    }

    #[test]
    fn bounds_and_refusals(rt: HostRuntime) {
        let floor = Bound::of(true, 3);
        let ceiling = Bound::of(false, 3);
        assert!(rt; floor.is_floor() && floor.decides(3) && !floor.decides(4));
        assert!(rt; !ceiling.is_floor() && ceiling.decides(3) && !ceiling.decides(2));
        assert_eq!(rt;
            (CallError::ShortTrail.number(), CallError::GameOver.number()),
            (1, 10)
        );
    }

    // Two piles of five stones that differ in their colour share a set; the side to move and the size tell piles apart.
    #[test]
    fn piles_of_stones(rt: HostRuntime) -> Result<(), Fail> {
        let red = Stones::position(&[5, 1, 1, 0, 0]);
        let blue = Stones::position(&[5, 1, 0, 0, 0]);
        assert!(rt; Stones::row(&red) == [5, 1, 1, 0, 0]);
        assert!(rt; Stones::after(&red, 2).is_none());
        let child = Stones::after(&red, 1).ok_or("no move")?;
        assert_eq!(rt; (child.gain, child.played), (2, 2));
        assert!(rt; Stones::row(&child.position) == [3, 0, 1, 0, 0]);
        let set = Stones::broad(&red);
        assert!(rt; Stones::belongs(&set, &Stones::probe(&blue)));
        assert!(rt; !Stones::belongs(&set, &Stones::probe(&child.position)));
        Ok(())
    }
}
