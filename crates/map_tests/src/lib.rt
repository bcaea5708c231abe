// Drafts and maps on examples: every question, every edge.
#![tactic(auto)]

#[cfg(test)]
mod tests {
    use definitions::{FaultCode, Link};
    use maps::fault::MapFault;
    use maps::map::Map;
    use maps::writing::write;
    use networks::draft::{Book, Draft, DraftFault};
    use networks::layers::{AtRisk, Withdrawn};
    use networks::network::Network;
    use std::alloc::{AllocError, Global};
    use std::test::Fail;

    // Bytes that are no map, with layer, number, place and byte of the first fault.
    const DAMAGED: [(&[u8], u8, u8, usize, usize); 14] = [
        (&[], 2, 6, 0, 0),
        (&[0, 4, 0], 2, 6, 3, 3),
        (&[0, 0, 0, 0], 2, 1, 0, 0),
        (&[1, 1, 0, 0], 2, 1, 257, 0),
        (&[0, 0, 255, 255], 2, 1, 0, 0),
        (&[0, 2, 4, 1], 2, 2, 1025, 2),
        (&[0, 2, 0, 1, 0, 0, 0, 1, 0, 0, 0, 1, 0, 0, 0], 2, 7, 15, 15),
        (
            &[0, 2, 0, 1, 0, 0, 0, 1, 0, 0, 0, 1, 0, 0, 0, 0, 0],
            2,
            7,
            16,
            16,
        ),
        (&[0, 1, 0, 0, 9], 2, 7, 4, 4),
        (
            &[0, 2, 0, 1, 0, 2, 0, 1, 0, 0, 0, 1, 0, 0, 0, 0],
            1,
            3,
            0,
            4,
        ),
        (
            &[0, 2, 0, 1, 0, 0, 0, 2, 0, 0, 0, 1, 0, 0, 0, 0],
            1,
            4,
            0,
            6,
        ),
        (
            &[0, 2, 0, 1, 0, 1, 0, 1, 0, 0, 0, 1, 0, 0, 0, 0],
            1,
            5,
            0,
            4,
        ),
        (
            &[
                0, 2, 0, 2, 0, 0, 0, 9, 0, 9, 0, 1, 0, 0, 0, 1, 0, 0, 0, 0, 0, 0, 0, 1, 0, 0, 0, 0,
            ],
            1,
            4,
            0,
            6,
        ),
        (
            &[
                0, 2, 0, 2, 0, 0, 0, 1, 0, 9, 0, 1, 0, 0, 0, 1, 0, 0, 0, 0, 0, 0, 0, 1, 0, 0, 0, 0,
            ],
            1,
            3,
            1,
            8,
        ),
    ];

    #[test]
    fn damaged_maps(rt: HostRuntime) -> Result<(), Fail> {
        for (bytes, layer, number, place, byte) in DAMAGED {
            let Err(fault) = Map::check(bytes) else {
                return Err(Fail::new("a damaged map passed"));
            };
            assert_eq!(rt;
                FaultCode::from(fault),
                FaultCode {
                    layer,
                    number,
                    place,
                }
            );
            assert_eq!(rt; fault.byte(), byte);
            assert!(rt; Map::try_from(bytes).is_err());
            let map = Map::open(bytes);
            assert_eq!(rt; map.node_count(), 0);
            assert_eq!(rt; map.place_count(), 0);
        }
        Ok(())
    }

    #[test]
    fn smallest_maps(rt: HostRuntime) -> Result<(), Fail> {
        assert_eq!(rt; Map::check(&[0, 1, 0, 0]), Ok(()));
        assert_eq!(rt; Map::check(&[1, 0, 0, 0]), Ok(()));
        let map = Map::try_from([1, 0, 0, 0].as_slice())?;
        assert_eq!(rt; map.node_count(), 256);
        assert_eq!(rt; map.place(0), None);
        let opened = Map::open(&[1, 0, 0, 0]);
        assert_eq!(rt; opened.node_count(), 256);
        assert_eq!(rt; opened.place(0), None);
        Ok(())
    }

    // A draft with two nodes and this many links from 0 to 1.
    fn parallel_links(heap: Global, links: usize) -> Result<Draft, Fail> {
        let mut draft = Draft::new(heap);
        draft.size(2)?;
        for _ in 0..links {
            draft.add(Link::new(0, 1, 0, 0))?;
        }
        Ok(draft)
    }

    #[test]
    fn full_draft(rt: HostRuntime) -> Result<(), Fail> {
        let mut draft = parallel_links(rt.alloc(), 1024)?;
        assert_eq!(rt;
            draft.add(Link::new(9, 9, 0, 0)),
            Err(DraftFault::Full(1024))
        );
        let book = draft.close();
        assert_eq!(rt; book.place_count(), 1024);
        let mut out = vec![in rt.alloc(); 7u8; 12_293]?;
        assert_eq!(rt; write(&book, &mut out), Ok(12_292));
        assert_eq!(rt; Map::check(&out), Err(MapFault::WrongLength(12_292)));
        assert!(rt; out.len() == 12_293);
        assert_eq!(rt; out[12_292], 7);
        assert_eq!(rt; Map::check(&out[0..12_292]), Ok(()));
        assert_eq!(rt;
            Map::check(&out[0..12_291]),
            Err(MapFault::WrongLength(12_291))
        );
        Ok(())
    }

    #[test]
    fn draft_questions(rt: HostRuntime) {
        let mut draft = Draft::new(rt.alloc());
        assert_eq!(rt; draft.size(0), Err(DraftFault::NodeCount(0)));
        assert_eq!(rt; draft.size(257), Err(DraftFault::NodeCount(257)));
        assert_eq!(rt;
            draft.add(Link::new(0, 1, 1, 0)),
            Err(DraftFault::TailBeyond(0))
        );
        assert_eq!(rt; draft.size(256), Ok(()));
        assert_eq!(rt; draft.add(Link::new(255, 0, 1, 0)), Ok(0));
        assert_eq!(rt;
            draft.add(Link::new(256, 256, 1, 0)),
            Err(DraftFault::TailBeyond(1))
        );
        assert_eq!(rt;
            draft.add(Link::new(0, 256, 1, 0)),
            Err(DraftFault::HeadBeyond(1))
        );
        assert_eq!(rt;
            draft.add(Link::new(4, 4, 1, 0)),
            Err(DraftFault::SameEnds(1))
        );
        let mut again = draft.close().reopen();
        assert_eq!(rt; again.add(Link::new(0, 255, 1, 0)), Ok(1));
        assert_eq!(rt; again.size(1), Ok(()));
        let book = again.close();
        assert_eq!(rt; book.node_count(), 1);
        assert_eq!(rt; book.place_count(), 0);
    }

    // Three nodes: a link with the largest figure and all groups, and one with figure 0 and no group.
    fn extremes(heap: Global) -> Result<Book, Fail> {
        let links = [
            Link::new(0, 1, 4_294_967_295, 4_294_967_295),
            Link::new(2, 1, 0, 0),
        ];
        Ok(Book::from_links(heap, 3, &links)?)
    }

    #[test]
    fn written_maps(rt: HostRuntime) -> Result<(), Fail> {
        let book = extremes(rt.alloc())?;
        let bytes = [
            0u8, 3, 0, 2, 0, 0, 0, 1, 0, 2, 0, 1, 255, 255, 255, 255, 255, 255, 255, 255, 0, 0, 0,
            0, 0, 0, 0, 0,
        ];
        let mut short = [9u8; 27];
        assert_eq!(rt; write(&book, &mut short), Err(MapFault::SmallBuffer(28)));
        assert!(rt; short == [9u8; 27]);
        let mut exact = [9u8; 28];
        assert_eq!(rt; write(&book, &mut exact), Ok(28));
        assert!(rt; exact == bytes);
        let mut long = [9u8; 30];
        assert_eq!(rt; write(&book, &mut long), Ok(28));
        assert!(rt; long[0..28] == bytes[0..28]);
        assert!(rt; long[28] == 9 && long[29] == 9);
        Ok(())
    }

    #[test]
    fn writing_refused(rt: HostRuntime) -> Result<(), Fail> {
        let mut out = [9u8; 40];
        let none = Draft::new(rt.alloc()).close();
        assert_eq!(rt; write(&none, &mut out), Err(MapFault::Nodes(0)));
        let book = extremes(rt.alloc())?;
        let marks = [false, true];
        let service = Withdrawn {
            network: &book,
            marks: &marks,
        };
        assert_eq!(rt; write(&service, &mut out), Err(MapFault::EmptyPlace(1)));
        let layer = AtRisk {
            network: service,
            link: 0,
        };
        assert_eq!(rt; write(&layer, &mut out), Err(MapFault::EmptyPlace(0)));
        assert!(rt; out == [9u8; 40]);
        Ok(())
    }
}
