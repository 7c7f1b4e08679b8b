// Instants and labels.
ghost use Rattle.std.specs.Prelude.{◌≡◌};
ghost use Rattle.tables.specs.Labels.{during, instant_of, end_of, label_of};

// The largest instant. A row that ends there is current.
pub const NOW: u32 = 4294967295;

// A row's end: a finite instant, or the word now; an enum of its own, since document 01 asks for it.
#[derive(Clone, Copy, Debug, PartialEq, Eq)]
pub enum End {
    At(u32),
    Current,
}

#[derive(Clone, Copy, Debug, PartialEq, Eq)]
pub struct Label {
    pub from: u32,
    pub end: End,
}

// The end that a table's number means.
impl From<u32> for End {
    ghost from_gives = { λ to end. end ≡ end_of to };

    #[tactic(auto, unfolding(crate::specs::Labels::end_of))]
    fn from(to: u32) -> End {
        if to == NOW { End::Current } else { End::At(to) }
    }
}

impl End {
    // A method, since the map of promises names it.
    pub fn instant(self) -> u32
        ensures { result ≡ instant_of self }
    {
        match self {
            End::At(t) => t,
            End::Current => NOW,
        }
    }
}

impl Label {
    // Two parts are no conversion: a constructor is the plainest.
    pub fn of(from: u32, to: u32) -> Label
        ensures { result ≡ label_of from to }
    {
        Label {
            from,
            end: End::from(to),
        }
    }

    pub fn in_force(self, t: u32) -> bool
        ensures { result ≡ during self.from (instant_of self.end) t }
    {
        (self.from <= t) & (t <= self.end.instant())
    }
}
