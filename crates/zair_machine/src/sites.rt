//! Atoms at sites: what is wrong with the pairs of a pulse, site by site.

ghost use Rattle.std.specs.Prelude.{◌≡◌, ◌<◌, ◌≤◌, ◌⊎◌, ◌↔◌, ℕ, MatchOption, length};
ghost use Rattle.std.specs.List.{All, Any};
ghost use Rattle.zac_arch.specs.Architecture.{IsTrapOf, left_trap, right_trap, site_count};
ghost use Rattle.zair_form.specs.declared.step.PairOf.{PairOf};
ghost use Rattle.zair_state.specs.Least.{IsLeastOf, IsLeastPairOf};
ghost use Rattle.zair_machine.specs.Sites.{HasSiteLaws, RestsAtSite, AreTogether, IsMarked, IsInOrder, IsListedWrong, IsUnlisted, IsAloneAtSite};
ghost use Rattle.zair_state.specs.State.{IsAt};

use crate::least::{earlier, lesser};
use crate::machine::Machine;
use zac_arch::{SiteId, TrapId, laws_of_traps};
use zair_form::PairOf;
use zair_state::Place;

/// The most sites of a card.
pub(crate) const MOST_SITES: usize = 1024;

/// The qubits of a pair, the smaller first.
fn in_order(p: PairOf) -> (u32, u32)
    ensures { IsInOrder p result.0 result.1 }
{
    (p.a.min(p.b), p.a.max(p.b))
}

impl<'a> Machine<'a> {
    /// The laws of the card's sites.
    pub(crate) fn site_laws(&self)
        ensures { HasSiteLaws self.now.card }
    {
        laws_of_traps(self.card());
    }

    /// The left and the right trap of a site.
    fn site_traps(&self, site: u32) -> (TrapId, TrapId)
        requires { site < site_count self.now.card }
        ensures left { result.0.0 ≡ left_trap self.now.card site }
        ensures right { result.1.0 ≡ right_trap self.now.card site }
    {
        self.card.site_traps(SiteId(site))
    }

    /// How many sites there are: at most `MOST_SITES`.
    pub(crate) fn sites(&self) -> u32
        ensures { result ≡ site_count self.now.card }
    {
        self.card.sites()
    }

    /// The site of a trap in which an atom rests.
    fn site_of_home(&self, q: u32, t: TrapId) -> Option<u32>
        requires { IsAt self.now.state q (Place.Trap t) }
        ensures { MatchOption result ((site : ℕ) → ¬ IsTrapOf self.now.card site t.0)
            (λ site. (site < site_count self.now.card) × IsTrapOf self.now.card site t.0) }
    {
        let _sound = self.most_beams();
        match self.card.site_of(t) {
            Some(site) => Some(site.0),
            None => None,
        }
    }

    /// The site at which the atom of a qubit rests.
    fn site_of(&self, q: u32) -> Option<u32>
        requires { q < length self.now.state.places }
        ensures { MatchOption result ((site : ℕ) → ¬ RestsAtSite self.now.card self.now.state site q)
            (λ site. (site < site_count self.now.card) × RestsAtSite self.now.card self.now.state site q) }
    {
        match self.place(q) {
            Place::Held { .. } => None,
            Place::Trap(t) => self.site_of_home(q, t),
        }
    }

    /// The site at which the atoms of two different qubits rest.
    fn common_site(&self, q: u32, r: u32) -> Option<u32>
        requires q_in { q < length self.now.state.places }
        requires r_in { r < length self.now.state.places }
        ensures { MatchOption result ((site : ℕ) → ¬ AreTogether self.now.card self.now.state site q r)
            (λ site. (site < site_count self.now.card) × AreTogether self.now.card self.now.state site q r) }
    {
        if q == r {
            return None;
        }
        match (self.site_of(q), self.site_of(r)) {
            (Some(s), Some(z)) => if s == z { Some(s) } else { None },
            _ => None,
        }
    }

    /// Marks the site at which the qubits of a listed pair rest. The pair is told where they rest at none, or where
    /// it is marked.
    fn note_pair(&self, p: PairOf, marks: &mut [bool]) -> Option<(u32, u32)>
        requires known { (p.a < length self.now.state.places) × (p.b < length self.now.state.places) }
        requires many { site_count self.now.card ≤ length marks.old }
        ensures wrong { MatchOption result
            ((site : ℕ) × AreTogether self.now.card self.now.state site p.a p.b × ¬ IsMarked marks.old site)
            (λ x. IsInOrder p x.0 x.1 × (((site : ℕ) → ¬ AreTogether self.now.card self.now.state site p.a p.b)
            ⊎ ((site : ℕ) × AreTogether self.now.card self.now.state site p.a p.b × IsMarked marks.old site))) }
        ensures marks { (site : ℕ) → (IsMarked marks.new site
            ↔ (IsMarked marks.old site ⊎ AreTogether self.now.card self.now.state site p.a p.b)) }
        ensures len { length marks.new ≡ length marks.old }
    {
        match self.common_site(p.a, p.b) {
            None => Some(in_order(p)),
            Some(site) => {
                if marks[site as usize] {
                    return Some(in_order(p));
                }
                marks[site as usize] = true;
                None
            }
        }
    }

    /// The first listed pair whose qubits rest at no common site, or at that of an earlier pair. The sites of all
    /// listed pairs are marked.
    pub(crate) fn least_listed_wrong(
        &self,
        pairs: &[PairOf],
        marks: &mut [bool],
    ) -> Option<(u32, u32)>
        requires known { All (λ p. (p.a < length self.now.state.places) × (p.b < length self.now.state.places)) pairs.now }
        requires many { site_count self.now.card ≤ length marks.old }
        requires clean { (site : ℕ) → ¬ IsMarked marks.old site }
        ensures wrong { IsLeastPairOf (IsListedWrong self.now.card self.now.state pairs.now) result }
        ensures marks { (site : ℕ) → (IsMarked marks.new site
            ↔ Any (λ (p : PairOf). AreTogether self.now.card self.now.state site p.a p.b) pairs.now) }
        ensures len { length marks.new ≡ length marks.old }
    {
        let mut least = None;
        for p in pairs {
            least = earlier(least, self.note_pair(*p, marks));
        }
        least
    }

    /// The qubits whose atoms rest together at a site, the smaller first, where it isn't marked.
    fn unlisted_at(&self, marks: &[bool], site: u32) -> Option<(u32, u32)>
        requires within { site < site_count self.now.card }
        requires many { site_count self.now.card ≤ length marks.now }
        ensures { MatchOption result
            ((q r : ℕ) → AreTogether self.now.card self.now.state site q r → IsMarked marks.now site)
            (λ x. (x.0 ≤ x.1) × AreTogether self.now.card self.now.state site x.0 x.1 × (¬ IsMarked marks.now site)
            × ((q r : ℕ) → q ≤ r → AreTogether self.now.card self.now.state site q r → (q ≡ x.0) × (r ≡ x.1))) }
    {
        if marks[site as usize] {
            return None;
        }
        let _sound = self.most_beams();
        let (left, right) = self.site_traps(site);
        match (
            self.atom_at(Place::Trap(left)),
            self.atom_at(Place::Trap(right)),
        ) {
            (Some(q), Some(r)) => Some((q.min(r), q.max(r))),
            _ => None,
        }
    }

    /// The first two qubits, the smaller first, whose atoms rest together at a site that isn't marked.
    pub(crate) fn least_unlisted(&self, marks: &[bool]) -> Option<(u32, u32)>
        requires many { site_count self.now.card ≤ length marks.now }
        ensures { IsLeastPairOf (IsUnlisted self.now.card self.now.state marks.now) result }
    {
        let _sound = self.most_beams();
        self.site_laws();
        let mut least = None;
        for site in 0..self.sites() {
            least = earlier(least, self.unlisted_at(marks, site));
        }
        least
    }

    /// The qubit whose atom rests alone at a site.
    fn alone_at(&self, site: u32) -> Option<u32>
        requires { site < site_count self.now.card }
        ensures { MatchOption result
            ((q : ℕ) → RestsAtSite self.now.card self.now.state site q → (r : ℕ) × AreTogether self.now.card self.now.state site q r)
            (λ q. RestsAtSite self.now.card self.now.state site q
            × ((r : ℕ) → ¬ AreTogether self.now.card self.now.state site q r)) }
    {
        let _sound = self.most_beams();
        let (left, right) = self.site_traps(site);
        match (
            self.atom_at(Place::Trap(left)),
            self.atom_at(Place::Trap(right)),
        ) {
            (Some(q), None) => Some(q),
            (None, Some(r)) => Some(r),
            _ => None,
        }
    }

    /// The least qubit whose atom rests alone at a site.
    pub(crate) fn least_alone_at_site(&self) -> Option<u32>
        ensures { IsLeastOf (IsAloneAtSite self.now.card self.now.state) result }
    {
        let _sound = self.most_beams();
        self.site_laws();
        let mut least = None;
        for site in 0..self.sites() {
            least = lesser(least, self.alone_at(site));
        }
        least
    }
}
