// A policy that is a list of vetoes, for callers who bring their own.
#![tactic(auto)]

ghost use Rattle.std.specs.Prelude.{◌≡◌, ◌<◌, length, MatchResult, true, false, ◌||◌, [], ◌∷◌, ◌++◌, is_ok, if◌then◌else◌};
ghost use Rattle.names.specs.Refusals.{number_of};
ghost use Rattle.names.specs.Spelt.{spelt};
ghost use Rattle.vetoes.specs.Vetoes.{covers, bars, barred};

use conflict_resolver::policy::Policy;
use names::name::Name;
use names::refusal::Refusal;
use std::alloc::{AllocError, Global};

/// For which candidates a veto counts. A search asks of its base as it stands, and then of numbered forms, and the two differ:
/// an author may have shadowed a name on purpose, but nobody wrote a reference to `now$1` to be captured.
#[derive(Clone, Copy)]
pub enum VetoKind {
    /// Where the name is the base that is sought for.
    Bare,
    /// Where the name is a numbered form of the base.
    Numbered,
    /// Wherever the name comes up.
    Both,
}

impl VetoKind {
    // Whether the kind counts for a bare candidate, or else for a numbered one.
    fn covers(self, bare: bool) -> bool
        ensures { result ≡ covers self bare }
    {
        match self {
            VetoKind::Bare => bare,
            VetoKind::Numbered => !bare,
            VetoKind::Both => true,
        }
    }
}

/// A name that no search is to answer, or not in one of the two ways.
#[derive(Clone, Copy)]
pub struct Veto {
    /// The candidate as a whole: a veto on `now$1` is no veto on `now`.
    pub name: Name,
    /// In which way it is barred.
    pub kind: VetoKind,
}

impl Veto {
    /// A veto on the candidate that is spelt so. Refused with 7 where the text has more than 105 bytes: no candidate has.
    pub fn new(kind: VetoKind, text: &[u8]) -> Result<Veto, Refusal>
        ensures { MatchResult result
            (λ veto. (veto.kind ≡ kind) × (spelt veto.name ≡ text.now))
            (λ refusal. (number_of refusal ≡ 7) × (105 < length text.now)) }
    {
        let name = Name::new(text)?;
        Ok(Veto { name, kind })
    }

    // Whether the veto is on this candidate.
    fn bars(&self, candidate: &Name, bare: bool) -> bool
        ensures { result ≡ bars (spelt candidate.now) bare self.now }
    {
        self.name == *candidate && self.kind.covers(bare)
    }
}

/// A policy that vetoes what it was told to, name by name or everything. It is for callers who know of names that no table
/// shows, as those that a page defines beside the script. A veto on everything is a flag of its own, since it leaves the list
/// as it is.
#[derive(Drop)]
pub struct Vetoes {
    all: bool,
    listed: Vec<Veto>,
}

impl Policy for Vetoes {
    ghost vetoes = { λ p c bare. p.all || barred p.listed.items c bare };

    fn vetoed(&self, candidate: &Name, bare: bool) -> bool {
        self.all || self.listed.iter().any(|veto| veto.bars(candidate, bare))
    }
}

impl Vetoes {
    /// The policy that vetoes nothing: a search under it looks at the records alone.
    pub fn none(heap: Global) -> Vetoes
        ensures { (result.all ≡ false) × (result.listed.items ≡ []) }
    {
        Vetoes {
            all: false,
            listed: Vec::new(heap),
        }
    }

    /// One veto more. Where there is no memory for it, the vetoes are as they were.
    pub fn add(&mut self, veto: Veto) -> Result<(), AllocError>
        ensures listed { self.new.listed.items ≡ (if is_ok result then self.old.listed.items ++ veto ∷ [] else self.old.listed.items) }
        ensures all { self.new.all ≡ self.old.all }
    {
        self.listed.push(veto)?;
        Ok(())
    }

    /// Every candidate is vetoed from here on, so that no search under the policy is granted.
    pub fn add_all(&mut self)
        ensures { (self.new.all ≡ true) × (self.new.listed.items ≡ self.old.listed.items) }
    {
        self.all = true;
    }

    /// Takes all vetoes back, the one on everything too.
    pub fn clear(&mut self)
        ensures { (self.new.all ≡ false) × (self.new.listed.items ≡ []) }
    {
        self.all = false;
        self.listed.clear();
    }
}
