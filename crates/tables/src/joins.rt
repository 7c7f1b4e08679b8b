// What rows of both kinds have in common: they join two nodes for as long as their label says.
ghost use Rattle.std.specs.Prelude.{◌≡◌, Bool, List, ℕ};
ghost use Rattle.tables.specs.Kinds.{number_of};
ghost use Rattle.tables.specs.Labels.{during, label_of};
ghost use Rattle.tables.specs.Tables.{cell_at};
ghost use Rattle.tables.specs.Rows.{from_at, to_at};
ghost use Rattle.tables.specs.Tests.{may_join_of};

use super::kinds::{NodeKind, may_hold, may_refer};
use super::label::Label;
use super::rows::{EdgeRow, RefRow, Row};

// A row that joins two nodes for as long as its label says.
pub trait Join: Row {
    // Whether it refers, or else holds.
    ghost refers: { Bool };

    ghost first: { Self → ℕ };

    ghost second: { Self → ℕ };

    ghost from: { Self → ℕ };

    ghost to: { Self → ℕ };

    fn sides(&self) -> (u32, u32)
        ensures first { result.0 ≡ first self.now }
        ensures second { result.1 ≡ second self.now };

    fn label(&self) -> Label
        ensures { result ≡ label_of (from self.now) (to self.now) };

    // Whether it may join nodes of these kinds.
    fn may_join(a: NodeKind, b: NodeKind) -> bool
        ensures { result ≡ may_join_of refers (number_of a) (number_of b) };

    // Where the numbers stand of which the rules speak.
    ghost first_number: { (xs : List ℕ) (i : ℕ) → first (Self.row_at xs i) ≡ cell_at Self.WIDTH xs i 0 };

    ghost second_number: { (xs : List ℕ) (i : ℕ) → second (Self.row_at xs i) ≡ cell_at Self.WIDTH xs i 1 };

    ghost from_number: { (xs : List ℕ) (i : ℕ) → from (Self.row_at xs i) ≡ from_at Self.WIDTH xs i };

    ghost to_number: { (xs : List ℕ) (i : ℕ) → to (Self.row_at xs i) ≡ to_at Self.WIDTH xs i };

    #[tactic(auto, using(crate::proofs::LabelLaws::label_during))]
    final fn in_force(&self, t: u32) -> bool
        ensures { result ≡ during (from self.now) (to self.now) t }
    {
        self.label().in_force(t)
    }
}

impl Join for EdgeRow {
    ghost use Rattle.std.specs.Prelude.{false};
    ghost use Rattle.tables.specs.Joins.{edge_first, edge_second, edge_from, edge_to};

    ghost refers = { false };

    ghost first = { λ e. e.parent };

    ghost second = { λ e. e.child };

    ghost from = { λ e. e.from };

    ghost to = { λ e. e.to };

    ghost first_number = { edge_first };

    ghost second_number = { edge_second };

    ghost from_number = { edge_from };

    ghost to_number = { edge_to };

    fn sides(&self) -> (u32, u32) {
        (self.parent, self.child)
    }

    fn label(&self) -> Label {
        Label::of(self.from, self.to)
    }

    fn may_join(a: NodeKind, b: NodeKind) -> bool {
        may_hold(a, b)
    }
}

impl Join for RefRow {
    ghost use Rattle.std.specs.Prelude.{true};
    ghost use Rattle.tables.specs.Joins.{ref_first, ref_second, ref_from, ref_to};

    ghost refers = { true };

    ghost first = { λ r. r.attribute };

    ghost second = { λ r. r.target };

    ghost from = { λ r. r.from };

    ghost to = { λ r. r.to };

    ghost first_number = { ref_first };

    ghost second_number = { ref_second };

    ghost from_number = { ref_from };

    ghost to_number = { ref_to };

    fn sides(&self) -> (u32, u32) {
        (self.attribute, self.target)
    }

    fn label(&self) -> Label {
        let RefRow { from, to, .. } = *self;
        Label::of(from, to)
    }

    fn may_join(a: NodeKind, b: NodeKind) -> bool {
        may_refer(a, b)
    }
}
