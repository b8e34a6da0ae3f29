// What is looked up in tables that have passed the examination.
ghost use Rattle.std.specs.Prelude.{◌≡◌, ◌<◌, ◌≤◌};
ghost use Rattle.problem.specs.Tables.{boats, size, listed, lower, higher, IsPlace, start};
ghost use Rattle.problem.specs.Sane.{Sane};

use super::FineTables;

impl FineTables<'_> {
    // A proof that looks nothing up in them learns here what they keep.
    pub fn keep_every_rule(&self)
        ensures { Sane self.now }
    {
        let _ = &self.sizes;
    }

    // How many boats there are.
    pub fn boats(&self) -> usize
        ensures value { result ≡ boats self.now }
        ensures sane { Sane self.now }
    {
        self.sizes.len()
    }

    // How many slots a boat has.
    pub fn size(&self, boat: usize) -> usize
        requires { boat < boats self.now }
        ensures value { result ≡ size self.now.sizes boat }
        ensures some { 0 < result }
        ensures few { result ≤ 64 }
    {
        looks::size_of(self.sizes, boat)
    }

    // How many pairs are listed.
    pub fn pairs(&self) -> usize
        ensures value { result ≡ listed self.now.pairs }
        ensures few { result ≤ 2016 }
        ensures sane { Sane self.now }
    {
        self.pairs.len() / 2
    }

    // The lower boat of a listed pair.
    pub fn lower(&self, pair: usize) -> usize
        requires { pair < listed self.now.pairs }
        ensures value { result ≡ lower self.now.pairs pair }
        ensures named { result < boats self.now }
    {
        looks::lower_of(self.pairs, pair)
    }

    // The higher boat of a listed pair.
    pub fn higher(&self, pair: usize) -> usize
        requires { pair < listed self.now.pairs }
        ensures value { result ≡ higher self.now.pairs pair }
        ensures named { result < boats self.now }
    {
        looks::higher_of(self.pairs, pair)
    }

    // The place of two boats' pair among the listed ones, if it is one of them.
    pub fn place(&self, lower: usize, higher: usize) -> Option<usize>
        ensures { IsPlace result self.now.pairs lower higher }
    {
        looks::place_of(self.pairs, lower, higher)
    }

    // The word where the rows of a listed pair begin.
    pub fn start(&self, pair: usize) -> usize
        requires { pair < listed self.now.pairs }
        ensures { result ≡ start self.now.sizes self.now.pairs pair }
    {
        looks::start_of(self.sizes, self.pairs, pair)
    }
}
