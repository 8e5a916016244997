// Two sums over every number of a table, so that a line tells of the whole table and not only of what a call answers.
use rangelists::RangeList;
use rules_table::{Attachment, Kind, Mapping, Object, Table};

// 2^32 - 5, a prime.
const PRIME: u64 = 4_294_967_291;

// The sum of the numbers so far, from 1, and the sum of those sums: both modulo that prime. They go by value from number to number: the compiler then sees that both are below it.
#[derive(Clone, Copy)]
pub struct Sums {
    pub plain: u64,
    pub ordered: u64,
}

impl Sums {
    // Before any number.
    fn new() -> Sums {
        Sums {
            plain: 1,
            ordered: 0,
        }
    }

    fn with(self, x: u64) -> Sums {
        let plain = (self.plain % PRIME + x % PRIME) % PRIME;
        let ordered = (self.ordered % PRIME + plain) % PRIME;
        Sums { plain, ordered }
    }

    fn with_all(self, xs: &[u64]) -> Sums {
        let mut sums = self;
        for x in xs {
            sums = sums.with(*x);
        }
        sums
    }

    // The kind's number, then the space that a device is attached to, 0 for any other object.
    fn with_kind(self, k: Kind) -> Sums {
        let (number, space) = match k {
            Kind::Free => (0, 0),
            Kind::Space => (1, 0),
            Kind::Device(Attachment::Loose) => (2, 0),
            Kind::Device(Attachment::Attached(space)) => (3, u64::from(space)),
        };
        self.with(number).with(space)
    }

    fn with_list<const N: usize>(self, l: &RangeList<N>) -> Sums {
        self.with(u64::from(l.count))
            .with_all(&l.starts)
            .with_all(&l.lasts)
    }

    fn with_object(self, o: &Object) -> Sums {
        self.with_kind(o.kind)
            .with(o.bitmap)
            .with_list(&o.reserved)
            .with_list(&o.allow)
    }

    fn with_mapping(self, m: &Mapping) -> Sums {
        self.with(u64::from(m.space))
            .with(u64::from(m.rights))
            .with(u64::from(m.founder))
            .with(u64::from(m.backing))
            .with(m.address)
            .with(m.length)
            .with(m.memory)
    }
}

pub fn of_table(t: &Table) -> Sums {
    let mut sums = Sums::new().with(t.limit);
    for o in &t.objects {
        sums = sums.with_object(o);
    }
    for m in &t.mappings {
        sums = sums.with_mapping(m);
    }
    sums
}
