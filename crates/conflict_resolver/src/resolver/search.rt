// The search.
ghost use Rattle.std.specs.Prelude.{◌≡◌, ℕ, ◌≤◌, true, ◌==◌};
ghost use Rattle.names.specs.Bases.{is_base};
ghost use Rattle.names.specs.Forms.{Suffix};
ghost use Rattle.names.specs.Spelt.{spelt};
ghost use Rattle.conflict_resolver.specs.Answers.{looked, answered, Going};
ghost use Rattle.conflict_resolver.specs.Held.{held, room, slots as slots_of};
ghost use Rattle.conflict_resolver.specs.Laws.{Sound, Bounded};
ghost use Rattle.conflict_resolver.specs.Records.{counter_of, has_free};
ghost use Rattle.conflict_resolver.specs.Rules.{next, follow, sight, run, searched};

use super::ConflictResolver;
use crate::policy::Policy;
use names::limits::HIGHEST_NUMBER;
use names::name::Name;
use names::refusal::Refusal;

// A search that would take more probes is too long.
const MOST_PROBES: u16 = 4096;

/// The name that a search found, and how many numbered forms it looked at: what the search cost, which its bound is about.
#[derive(Clone, Copy)]
pub struct Resolved {
    pub name: Name,
    pub probes: u16,
}

impl ConflictResolver {
    // Looks at the candidate of number k (the base has number 0). Where it is free it is recorded, and there is no number
    // to go on at.
    fn look<P: Policy>(
        &mut self,
        candidate: &Name,
        k: u16,
        policy: &P,
    ) -> Result<Option<u16>, Refusal>
        requires free { has_free (room self.old) (held self.old) ≡ true }
        requires number { k ≤ 9999 }
        ensures follows { (p : ℕ) → looked result (held self.new) (spelt candidate.now) p ≡ follow (held self.old) (spelt candidate.now) k p (sight (counter_of (held self.old) (spelt candidate.now)) (P.vetoes policy.now (spelt candidate.now) (k == 0))) }
        ensures going { Going result self.new }
        ensures room { room self.new ≡ room self.old }
        ensures slots { slots_of self.new ≡ slots_of self.old }
    {
        if let Some(counter) = self.counter(candidate) {
            if counter >= HIGHEST_NUMBER {
                return Err(Refusal::CounterLimit);
            }
            self.raise(candidate, counter);
            return Ok(Some(counter + 1));
        }
        if policy.vetoed(candidate, k == 0) {
            if k >= HIGHEST_NUMBER {
                return Err(Refusal::CounterLimit);
            }
            return Ok(Some(k + 1));
        }
        self.put_on_record(candidate);
        Ok(None)
    }

    // Probes the numbered forms of the base from number `first` on.
    fn search_forms<P: Policy>(
        &mut self,
        base: &Name,
        first: u16,
        policy: &P,
    ) -> Result<Resolved, Refusal>
        requires base { is_base (spelt base.now) ≡ true }
        requires number { Suffix first }
        requires free { has_free (room self.old) (held self.old) ≡ true }
        ensures runs { answered result (held self.new) ≡ run (P.vetoes policy.now) (spelt base.now) 4096 (next (held self.old) first 0) }
        ensures room { room self.new ≡ room self.old }
        ensures slots { slots_of self.new ≡ slots_of self.old }
    {
        let mut conflict_index = first;
        for probes in 1..=MOST_PROBES {
            let Some(candidate) = base.numbered(conflict_index) else {
                unreachable()
            };
            match self.look(&candidate, conflict_index, policy)? {
                Some(k) => conflict_index = k,
                None => {
                    return Ok(Resolved {
                        name: candidate,
                        probes,
                    });
                }
            }
        }
        Err(Refusal::SearchTooLong)
    }

    /// Finds a name for `base` that is not on record and not vetoed, and puts it on record: the base itself, as the source
    /// has it, or else a numbered form. The counter of the base says where to go on, so that the tenth `now` does not try
    /// nine forms that are taken. Without a free record it is refused at once: there would be nowhere to put its answer.
    pub fn resolve<P: Policy>(&mut self, base: &Name, policy: &P) -> Result<Resolved, Refusal>
        ensures follows_the_rules { answered result (held self.new) ≡ searched (P.vetoes policy.now) (spelt base.now) (room self.old) (held self.old) }
        ensures grants_a_new_unvetoed_name { Sound (P.vetoes policy.now) (spelt base.now) (held self.old) (answered result (held self.new)) }
        ensures probes_are_bounded { Bounded (P.vetoes policy.now) (spelt base.now) (held self.old) (answered result (held self.new)) }
        ensures room { room self.new ≡ room self.old }
        ensures slots { slots_of self.new ≡ slots_of self.old }
    {
        if !base.is_base() {
            return Err(Refusal::BadName);
        }
        if !self.has_free_record() {
            return Err(Refusal::NoFreeRecord);
        }
        match self.look(base, 0, policy)? {
            Some(first) => self.search_forms(base, first, policy),
            None => Ok(Resolved {
                name: *base,
                probes: 0,
            }),
        }
    }
}
