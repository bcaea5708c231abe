// The searches on small networks whose answers were worked out by hand.
#![tactic(auto)]

#[cfg(test)]
mod tests {
    use definitions::Link;
    use frontier::lists::at;
    use frontier::record::NodeRecord;
    use measures::{Delay, Measure, Width};
    use networks::draft::{Book, Draft};
    use search::tables::{
        NoDestination, Workspace, plain_tables, plain_values, recovery_values, worst_tables,
    };
    use std::alloc::Global;
    use std::fmt::Debug;
    use std::process::Abort;
    use std::test::Fail;

    // Stays in both test crates that use it: shared, it would be a public call of a library, for tests alone.
    // The example network: four nodes, links 0 to 5, of which links 1 and 3 have these groups.
    fn example(heap: Global, groups: u32) -> Result<Book, Fail> {
        let links = [
            Link::new(0, 1, 2, 0),
            Link::new(1, 3, 3, groups),
            Link::new(1, 2, 9, 0),
            Link::new(2, 3, 4, groups),
            Link::new(0, 2, 5, 0),
            Link::new(2, 1, 2, 0),
        ];
        Ok(Book::from_links(heap, 4, &links)?)
    }

    // The first items are these, and the one after them is none.
    fn items_are<T: Copy + PartialEq + Debug, F: Fn(usize) -> Option<T>>(
        rt: &impl Abort,
        item: F,
        expected: &[Option<T>],
    )
        requires { F.IsAlwaysCallable item }
    {
        for (k, wanted) in expected.iter().enumerate() {
            assert_eq!(rt; item(k), *wanted);
        }
        assert_eq!(rt; item(expected.len()), None);
    }

    // The values of the first nodes are these, and the one after them has none.
    fn values_are(rt: &impl Abort, records: &[NodeRecord], expected: &[Option<u64>]) {
        items_are(rt, |k| records.get(k)?.value, expected);
    }

    // The same of steps, of next links, and of the recovery values of places.
    fn steps_are(rt: &impl Abort, records: &[NodeRecord], expected: &[Option<u16>]) {
        items_are(rt, |k| records.get(k)?.steps, expected);
    }

    fn nexts_are(rt: &impl Abort, records: &[NodeRecord], expected: &[Option<u16>]) {
        items_are(rt, |k| records.get(k)?.next, expected);
    }

    fn recoveries_are(rt: &impl Abort, recoveries: &[Option<u64>], expected: &[Option<u64>]) {
        items_are(rt, |k| at(recoveries, k), expected);
    }

    #[test]
    fn example_by_plain_delay(rt: HostRuntime) -> Result<(), Fail> {
        let book = example(rt.alloc(), 0)?;
        let mut workspace = Workspace::new();
        let mut records = [NodeRecord::default(); 256];
        plain_values::<Book, Delay>(&book, 3, &mut records, &mut workspace)?;
        values_are(&rt, &records, &[Some(5), Some(3), Some(4), Some(0)]);
        let mut records = [NodeRecord::default(); 256];
        plain_tables::<Book, Delay>(&book, 3, &mut records, &mut workspace)?;
        values_are(&rt, &records, &[Some(5), Some(3), Some(4), Some(0)]);
        steps_are(&rt, &records, &[Some(2), Some(1), Some(1), Some(0)]);
        nexts_are(&rt, &records, &[Some(0), Some(1), Some(3), None]);
        Ok(())
    }

    #[test]
    fn example_by_guaranteed_delay(rt: HostRuntime) -> Result<(), Fail> {
        let book = example(rt.alloc(), 0)?;
        let mut workspace = Workspace::new();
        let mut recoveries = [None; 1024];
        let mut records = [NodeRecord::default(); 256];
        worst_tables::<Book, Delay>(&book, 3, &mut recoveries, &mut records, &mut workspace)?;
        recoveries_are(
            &rt,
            &recoveries,
            &[Some(9), Some(13), Some(3), Some(5), Some(5), Some(4)],
        );
        values_are(&rt, &records, &[Some(10), Some(13), Some(5), Some(0)]);
        steps_are(&rt, &records, &[Some(2), Some(1), Some(1), Some(0)]);
        nexts_are(&rt, &records, &[Some(4), Some(1), Some(3), None]);
        Ok(())
    }

    #[test]
    fn example_by_guaranteed_width(rt: HostRuntime) -> Result<(), Fail> {
        let book = example(rt.alloc(), 0)?;
        let mut workspace = Workspace::new();
        let mut recoveries = [None; 1024];
        let mut records = [NodeRecord::default(); 256];
        worst_tables::<Book, Width>(&book, 3, &mut recoveries, &mut records, &mut workspace)?;
        recoveries_are(
            &rt,
            &recoveries,
            &[Some(4), Some(4), Some(3), Some(2), Some(2), Some(4)],
        );
        values_are(
            &rt,
            &records,
            &[Some(2), Some(3), Some(2), Some(4_294_967_295)],
        );
        nexts_are(&rt, &records, &[Some(0), Some(1), Some(3), None]);
        Ok(())
    }

    #[test]
    fn links_that_fail_together_are_not_backed_up(rt: HostRuntime) -> Result<(), Fail> {
        let book = example(rt.alloc(), 1)?;
        let mut workspace = Workspace::new();
        let mut recoveries = [Some(7); 1024];
        recovery_values::<Book, Delay>(&book, 3, &mut recoveries, &mut workspace)?;
        recoveries_are(
            &rt,
            &recoveries,
            &[Some(9), None, Some(3), None, Some(5), Some(4)],
        );
        let mut records = [NodeRecord::default(); 256];
        worst_tables::<Book, Delay>(&book, 3, &mut recoveries, &mut records, &mut workspace)?;
        values_are(&rt, &records, &[None, None, None, Some(0)]);
        steps_are(&rt, &records, &[None, None, None, Some(0)]);
        nexts_are(&rt, &records, &[None, None, None, None]);
        Ok(())
    }

    #[test]
    fn no_node_is_refused(rt: HostRuntime) {
        let book = Draft::new(rt.alloc()).close();
        let mut workspace = Workspace::new();
        let mut recoveries = [Some(7); 1024];
        let mut records = [NodeRecord::default(); 256];
        records[0].value = Some(8);
        assert_eq!(rt;
            plain_values::<Book, Delay>(&book, 0, &mut records, &mut workspace),
            Err(NoDestination)
        );
        assert_eq!(rt;
            plain_tables::<Book, Delay>(&book, 0, &mut records, &mut workspace),
            Err(NoDestination)
        );
        assert_eq!(rt;
            recovery_values::<Book, Delay>(&book, 0, &mut recoveries, &mut workspace),
            Err(NoDestination)
        );
        assert_eq!(rt;
            worst_tables::<Book, Delay>(&book, 0, &mut recoveries, &mut records, &mut workspace),
            Err(NoDestination)
        );
        assert_eq!(rt; at(&recoveries, 0), Some(7));
        values_are(&rt, &records, &[Some(8)]);
    }

    #[test]
    fn no_places_and_one_node(rt: HostRuntime) -> Result<(), Fail> {
        let mut workspace = Workspace::new();
        let mut records = [NodeRecord::default(); 256];
        let apart = Book::from_links(rt.alloc(), 2, &[])?;
        plain_tables::<Book, Width>(&apart, 1, &mut records, &mut workspace)?;
        values_are(&rt, &records, &[None, Some(4_294_967_295)]);
        assert_eq!(rt;
            plain_tables::<Book, Width>(&apart, 2, &mut records, &mut workspace),
            Err(NoDestination)
        );
        let alone = Book::from_links(rt.alloc(), 1, &[])?;
        plain_tables::<Book, Delay>(&alone, 0, &mut records, &mut workspace)?;
        values_are(&rt, &records, &[Some(0)]);
        steps_are(&rt, &records, &[Some(0)]);
        nexts_are(&rt, &records, &[None]);
        Ok(())
    }

    #[test]
    fn of_parallel_links_the_lowest_number_is_next(rt: HostRuntime) -> Result<(), Fail> {
        let book = Book::from_links(
            rt.alloc(),
            2,
            &[
                Link::new(0, 1, 7, 0),
                Link::new(0, 1, 5, 0),
                Link::new(0, 1, 5, 0),
            ],
        )?;
        let mut workspace = Workspace::new();
        let mut recoveries = [None; 1024];
        let mut records = [NodeRecord::default(); 256];
        worst_tables::<Book, Delay>(&book, 1, &mut recoveries, &mut records, &mut workspace)?;
        recoveries_are(&rt, &recoveries, &[Some(5), Some(5), Some(5)]);
        values_are(&rt, &records, &[Some(5), Some(0)]);
        nexts_are(&rt, &records, &[Some(1), None]);
        Ok(())
    }

    #[test]
    fn delays_of_zero_in_a_cycle(rt: HostRuntime) -> Result<(), Fail> {
        let links = [
            Link::new(0, 1, 0, 0),
            Link::new(1, 0, 0, 0),
            Link::new(1, 2, 0, 0),
            Link::new(2, 0, 0, 0),
            Link::new(2, 3, 0, 0),
            Link::new(0, 3, 0, 0),
        ];
        let book = Book::from_links(rt.alloc(), 4, &links)?;
        let mut workspace = Workspace::new();
        let mut records = [NodeRecord::default(); 256];
        plain_tables::<Book, Delay>(&book, 3, &mut records, &mut workspace)?;
        values_are(&rt, &records, &[Some(0), Some(0), Some(0), Some(0)]);
        steps_are(&rt, &records, &[Some(1), Some(2), Some(1), Some(0)]);
        nexts_are(&rt, &records, &[Some(5), Some(1), Some(4), None]);
        Ok(())
    }

    #[test]
    fn equal_widths(rt: HostRuntime) -> Result<(), Fail> {
        let links = [
            Link::new(0, 1, 7, 0),
            Link::new(1, 2, 7, 0),
            Link::new(2, 3, 7, 0),
            Link::new(0, 2, 7, 0),
        ];
        let book = Book::from_links(rt.alloc(), 4, &links)?;
        let mut workspace = Workspace::new();
        let mut records = [NodeRecord::default(); 256];
        plain_tables::<Book, Width>(&book, 3, &mut records, &mut workspace)?;
        values_are(
            &rt,
            &records,
            &[Some(7), Some(7), Some(7), Some(4_294_967_295)],
        );
        steps_are(&rt, &records, &[Some(2), Some(2), Some(1), Some(0)]);
        nexts_are(&rt, &records, &[Some(3), Some(1), Some(2), None]);
        Ok(())
    }

    #[test]
    fn the_longest_route_of_the_largest_figures(rt: HostRuntime) -> Result<(), Fail> {
        let mut draft = Draft::new(rt.alloc());
        draft.size(256)?;
        for node in 0..255u16 {
            draft.add(Link::new(node, node + 1, 4_294_967_295, 0))?;
        }
        let book = draft.close();
        let mut workspace = Workspace::new();
        let mut records = [NodeRecord::default(); 256];
        plain_tables::<Book, Delay>(&book, 255, &mut records, &mut workspace)?;
        assert_eq!(rt; records[0].value, Some(1_095_216_660_225));
        assert_eq!(rt; records[0].steps, Some(255));
        assert_eq!(rt; records[254].next, Some(254));
        plain_tables::<Book, Width>(&book, 255, &mut records, &mut workspace)?;
        assert_eq!(rt; records[0].value, Some(4_294_967_295));
        Ok(())
    }

    #[test]
    fn a_delay_stops_at_the_largest_value(rt: HostRuntime) {
        assert_eq!(rt;
            Delay::extend(18_446_744_073_709_551_614, 5),
            18_446_744_073_709_551_615
        );
        assert_eq!(rt;
            Delay::extend(18_446_744_073_709_551_610, 5),
            18_446_744_073_709_551_615
        );
        assert_eq!(rt; Width::extend(4_294_967_295, 0), 0);
    }
}
