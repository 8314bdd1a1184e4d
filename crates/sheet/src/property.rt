ghost use Rattle.std.specs.Prelude.{◌≡◌, ◌<◌, ℕ, Bool, IfSome};
ghost use Rattle.sheet.specs.Asked.{first_no, every, asked, Says};
ghost use Rattle.sheet.specs.Sheet.{view, first_row, rows_in};

use super::refusal::Refusal;
use super::section::Section;
use super::table::Table;

/// The first of 0 to n - 1 that the test says no of.
// A `find` was tried: it leaves a goal that the check does not find by itself.
pub fn first_no<F: Fn(usize) -> bool>(n: usize, test: F) -> Option<usize>
    requires { F.IsAlwaysCallable test }
    ensures first { (p : ℕ → Bool) → Says F.post test n p → result ≡ first_no p 0 n }
    ensures bound { IfSome result (λ k. k < n) }
{
    for k in 0..n {
        if !test(k) {
            return Some(k);
        }
    }
    None
}

/// The test says yes of each of 0 to n - 1.
pub fn all<F: Fn(usize) -> bool>(n: usize, test: F) -> bool
    requires { F.IsAlwaysCallable test }
    ensures { (p : ℕ → Bool) → Says F.post test n p → result ≡ every p n }
{
    first_no(n, test).is_none()
}

impl Table<'_> {
    // The number of the section's first row.
    fn first_row(&self, section: Section) -> usize
        ensures { result ≡ first_row (view self.now.rows.now) section }
    {
        match section {
            Section::All | Section::Types => 0,
            Section::Sites => self.types,
            Section::Nodes => self.types + self.sites,
            Section::Entries => self.types + self.sites + self.nodes,
        }
    }

    // How many rows the section has.
    fn rows_in(&self, section: Section) -> usize
        ensures { result ≡ rows_in (view self.now.rows.now) section }
    {
        match section {
            Section::All => self.rows.len(),
            Section::Types => self.types,
            Section::Sites => self.sites,
            Section::Nodes => self.nodes,
            Section::Entries => self.entries,
        }
    }

    /// Asks the question of each row of the section: the first that the test says no of is named.
    pub fn ask<F: Fn(usize) -> bool, Q: Copy>(
        &self,
        question: Q,
        section: Section,
        test: F,
    ) -> Result<(), Refusal<Q>>
        requires { F.IsAlwaysCallable test }
        ensures { (p : ℕ → Bool) → Says F.post test (rows_in (view self.now.rows.now) section) p → result ≡ asked question (first_row (view self.now.rows.now) section) p (rows_in (view self.now.rows.now) section) }
    {
        match first_no(self.rows_in(section), test) {
            None => Ok(()),
            Some(k) => Err(Refusal {
                question,
                row: self.first_row(section) + k,
            }),
        }
    }
}
