// The console's library: input in pieces, first lines, and faults of maps.
#![tactic(auto)]

#[cfg(test)]
mod tests {
    use dialogue::admission::admit_map;
    use dialogue::session::{Session, converse};
    use lines::feed::Feed;
    use maps::map::Map;
    use std::alloc::Global;
    use std::process::Abort;
    use std::test::Fail;

    // Four nodes and six links without groups: tail, head, figure are 0 1 2; 1 3 3; 1 2 9; 2 3 4; 0 2 5; 2 1 2.
    const EXAMPLE: [u8; 76] = [
        0, 4, 0, 6, 0, 0, 0, 1, 0, 1, 0, 3, 0, 1, 0, 2, 0, 2, 0, 3, 0, 0, 0, 2, 0, 2, 0, 1, 0, 0,
        0, 2, 0, 0, 0, 0, 0, 0, 0, 3, 0, 0, 0, 0, 0, 0, 0, 9, 0, 0, 0, 0, 0, 0, 0, 4, 0, 0, 0, 0,
        0, 0, 0, 5, 0, 0, 0, 0, 0, 0, 0, 2, 0, 0, 0, 0,
    ];

    // What a session over a map says to an input.
    fn check_said(
        rt: &impl Abort,
        heap: Global,
        map: &[u8],
        input: &[u8],
        expected: &str,
    ) -> Result<(), Fail> {
        let mut out = String::new(heap);
        converse(heap, Map::open(map), input, &mut out)?;
        assert_eq!(rt; out.as_str(), expected);
        Ok(())
    }

    // The same where the input comes in two pieces, cut before byte `at`.
    fn check_pieces(
        rt: &impl Abort,
        heap: Global,
        input: &[u8],
        at: usize,
        expected: &str,
    ) -> Result<(), Fail> {
        let at = at.min(input.len());
        let mut session = Session::new(heap, Map::open(&EXAMPLE));
        let mut out = String::new(heap);
        let mut feed = Feed::new();
        feed.feed(&input[..at], &mut out, &mut session)?;
        feed.feed(&input[at..], &mut out, &mut session)?;
        feed.finish(&mut out, &mut session)?;
        assert_eq!(rt; out.as_str(), expected);
        Ok(())
    }

    #[test]
    fn pieces(rt: HostRuntime) -> Result<(), Fail> {
        let input = b"D\nP 3\nG 0\n\nR 0\nB 0";
        let expected = "D 4 6\nP 3 4\nG 0 10\nE 4 4 19 0\nR 0 4 3\nB 0 0 1\n";
        for at in 0..20 {
            check_pieces(&rt, rt.alloc(), input, at, expected)?;
        }
        check_said(&rt, rt.alloc(), &EXAMPLE, input, expected)
    }

    // A first line that is missing or is not just D or C ends the session.
    #[test]
    fn first_lines(rt: HostRuntime) -> Result<(), Fail> {
        let bad: [&[u8]; 10] = [
            b"",
            b"\n",
            b"\nD\n",
            b"d\nP 3\n",
            b"DD",
            b"D \n",
            b" D\n",
            b"D\r\nP 3\n",
            b"7\n",
            b"\xff\n",
        ];
        for input in bad {
            check_said(&rt, rt.alloc(), &EXAMPLE, input, "E 1 4 19 0\n")?;
        }
        check_said(&rt, rt.alloc(), &EXAMPLE, b"D", "D 4 6\n")?;
        check_said(&rt, rt.alloc(), &EXAMPLE, b"C\n", "C 4 6\n")?;
        check_said(
            &rt,
            rt.alloc(),
            &[],
            b"C\nP 0\nG 0\nW 0\n",
            "C 0 0\nE 2 3 11 0\nE 3 3 12 0\nE 4 3 8 0\n",
        )
    }

    #[test]
    fn faults_of_the_map(rt: HostRuntime) -> Result<(), Fail> {
        let bad: [(&[u8], &str); 7] = [
            (&[], "E 0 2 6 0\n"),
            (&[0, 0, 0, 0], "E 0 2 1 0\n"),
            (&[0, 2, 4, 1], "E 0 2 2 1025\n"),
            (
                &[0, 2, 0, 1, 0, 0, 0, 1, 0, 0, 0, 1, 0, 0, 0],
                "E 0 2 7 15\n",
            ),
            (
                &[0, 2, 0, 1, 0, 2, 0, 1, 0, 0, 0, 1, 0, 0, 0, 0],
                "E 0 1 3 0\n",
            ),
            (
                &[0, 2, 0, 1, 0, 0, 0, 2, 0, 0, 0, 1, 0, 0, 0, 0],
                "E 0 1 4 0\n",
            ),
            (
                &[0, 2, 0, 1, 0, 1, 0, 1, 0, 0, 0, 1, 0, 0, 0, 0],
                "E 0 1 5 0\n",
            ),
        ];
        for (bytes, expected) in bad {
            let mut out = String::new(rt.alloc());
            assert!(rt; !admit_map(bytes, &mut out)?);
            assert_eq!(rt; out.as_str(), expected);
        }
        let mut out = String::new(rt.alloc());
        assert!(rt; admit_map(&EXAMPLE, &mut out)?);
        assert_eq!(rt; out.as_str(), "");
        Ok(())
    }
}
