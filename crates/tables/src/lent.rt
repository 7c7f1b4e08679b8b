// What a call is lent: numbers, and a count of rows beside them. SIZE asks that they agree.
ghost use Rattle.std.specs.Prelude.{◌≡◌};

use std::marker::Model;

#[derive(Drop)]
pub struct Table<'a> {
    pub numbers: &'a [u32],
    pub count: usize,
}

impl<'a> Model for Table<'a> {
    ghost use Rattle.tables.specs.Numbered.{Numbered};

    ghost Value = { Numbered };

    ghost view = { λ t. record { numbers = t.numbers.now; count = t.count } };
}

impl<'a> Table<'a> {
    // How many rows there are said to be.
    pub fn len(&self) -> usize
        ensures { result ≡ self.now.count }
    {
        self.count
    }
}

#[derive(Drop)]
pub struct Tables<'a> {
    pub start: u32,
    pub nodes: Table<'a>,
    pub edges: Table<'a>,
    pub refs: Table<'a>,
}
