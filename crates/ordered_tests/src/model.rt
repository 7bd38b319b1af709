// The lists held against a plain model: which of the small numbers are in the list.
ghost use Rattle.std.specs.Prelude.{◌<◌, ◌%◌, ◌==◌};

#[cfg(test)]
mod tests {
    use crate::entry::Entry;
    use crate::index::Index;
    use ordered::batch::insert_all;
    use ordered::edit::{Predicate, remove_all, remove_where};
    use ordered::insertion::Insertion;
    use ordered::list::OrderedList;
    use std::process::Abort;

    // A linear congruential generator; its high bits are the number.
    #[derive(Drop)]
    struct Numbers(u64);

    impl Numbers {
        fn below(&mut self, n: u32) -> u32
            requires { 0 < n }
            ensures { result < n }
        {
            self.0 = self
                .0
                .wrapping_mul(6364136223846793005)
                .wrapping_add(1442695040888963407);
            let high = self.0 >> 33;
            (high % n as u64) as u32
        }
    }

    // Whether the records are the numbers of the model, from the smallest on.
    fn same(list: &[u32], there: &[bool]) -> bool {
        let held = there.iter().enumerate().filter(|(_, held)| **held);
        list.iter().map(|x| *x as usize).eq(held.map(|(v, _)| v))
    }

    fn put_in(rt: &impl Abort, list: &mut OrderedList<'_, u32>, there: &mut [bool], x: u32) {
        let place = x as usize;
        assert!(rt; place < there.len());
        let held = there[place];
        match list.insert(x) {
            Insertion::At(_) => {
                assert!(rt; !held);
                there[place] = true;
            }
            Insertion::Present(i) => {
                let records = list.as_slice();
                assert!(rt; held && i < records.len() && records[i] == x);
            }
            Insertion::Full => {
                assert!(rt; !held && list.len() == list.entries.len());
            }
        }
    }

    fn take_out(rt: &impl Abort, list: &mut OrderedList<'_, u32>, there: &mut [bool], x: u32) {
        let place = x as usize;
        assert!(rt; place < there.len());
        let held = there[place];
        there[place] = false;
        assert!(rt; list.remove(x).is_some() == held);
    }

    // m numbers written behind the list and put in at once; the answer is the new count.
    fn put_in_batch(
        rt: &impl Abort,
        list: &mut [u32],
        n: usize,
        m: usize,
        there: &mut [bool],
        numbers: &mut Numbers,
    ) -> usize {
        assert!(rt; n <= list.len() && m <= list.len() - n);
        for entry in list[n..n + m].iter_mut() {
            let x = numbers.below(256);
            let place = x as usize;
            assert!(rt; place < there.len());
            there[place] = true;
            *entry = x;
        }
        insert_all(list, n, m)
    }

    #[derive(Clone, Copy)]
    struct OfRest(u32);

    // Numbers that leave the rest when divided by 5.
    impl Predicate<u32> for OfRest {
        ghost holds = { λ p x. (x % 5 == p.0) };

        fn test(&self, x: &u32) -> bool {
            *x % 5 == self.0
        }
    }

    // Takes out the numbers that leave the rest when divided by 5: the odd rests by a `Predicate`, the others by a closure.
    fn take_out_rest(
        rt: &impl Abort,
        list: &mut [u32],
        n: usize,
        there: &mut [bool],
        rest: u32,
    ) -> usize {
        assert!(rt; n <= list.len());
        for (v, held) in there.iter_mut().enumerate() {
            if v % 5 == rest as usize {
                *held = false;
            }
        }
        if rest % 2 == 1 {
            remove_all(list, n, &OfRest(rest))
        } else {
            remove_where(list, n, |x| *x % 5 == rest)
        }
    }

    fn one_by_one_in(rt: &impl Abort, entries: &mut [u32], there: &mut [bool]) {
        let mut numbers = Numbers(7);
        let mut list = OrderedList::new(entries);
        for _ in 0..3000 {
            let x = numbers.below(128);
            if numbers.below(5) < 3 {
                put_in(rt, &mut list, there, x);
            } else {
                take_out(rt, &mut list, there, x);
            }
            assert!(rt; same(list.as_slice(), there));
        }
    }

    // Batches with enough free room, with some, and with none; now and then a fifth of the numbers is taken out. The part that is lent
    // changes from batch to batch, so these are the functions below `OrderedList`.
    fn in_batches_in(rt: &impl Abort, list: &mut [u32], there: &mut [bool]) {
        let mut numbers = Numbers(11);
        let mut n = 0usize;
        for _ in 0..400 {
            let m = numbers.below(80) as usize;
            let room = numbers.below(100) as usize;
            let end = n.saturating_add(m).saturating_add(room).min(list.len());
            assert!(rt; n <= end && end <= list.len());
            n = put_in_batch(rt, &mut list[..end], n, m.min(end - n), there, &mut numbers);
            assert!(rt; n <= list.len() && same(&list[..n], there));
            n = take_out_rest(rt, list, n, there, numbers.below(5));
            assert!(rt; n <= list.len() && same(&list[..n], there));
        }
    }

    // Whether the range holds exactly the entries of the value.
    fn exact(index: &Index<'_, Entry<u32>>, value: u32) -> bool {
        let places = index.of_value(value);
        let records = index.list.as_slice();
        records
            .iter()
            .enumerate()
            .all(|(k, x)| (x.value == value) == places.contains(&k))
    }

    fn spans_in(rt: &impl Abort, entries: &mut [Entry<u32>]) {
        let mut numbers = Numbers(13);
        let mut index = Index {
            list: OrderedList::new(entries),
        };
        for _ in 0..300 {
            index.add(Entry {
                value: numbers.below(14),
                file: 1,
                place: numbers.below(9),
            });
            for value in 0..15 {
                assert!(rt; exact(&index, value));
            }
        }
        assert!(rt; index.list.len() == index.list.entries.len());
    }

    #[test]
    fn one_by_one(rt: HostRuntime) {
        one_by_one_in(&rt, &mut [0; 48], &mut [false; 128]);
    }

    #[test]
    fn in_batches(rt: HostRuntime) {
        in_batches_in(&rt, &mut [0; 320], &mut [false; 256]);
    }

    #[test]
    fn spans(rt: HostRuntime) {
        spans_in(
            &rt,
            &mut [Entry {
                value: 0,
                file: 0,
                place: 0,
            }; 100],
        );
    }
}
