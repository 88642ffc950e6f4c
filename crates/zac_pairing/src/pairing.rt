//! Which end has which partner.

ghost use Rattle.std.specs.Prelude.{ℕ, ◌≡◌, ◌<◌, None, Some, IfOk, vec_len, slice_set};
ghost use Rattle.zac_pairing.specs.Pairing.{mate, IsPairing, freed, free_count};

use std::alloc::{AllocError, Global};

/// The partner of each end of the left side and of each end of the right side, one to one.
#[derive(Drop)]
pub struct Pairing {
    /// The right end of each left end, if it has one.
    pub left: Vec<Option<u32>>,
    /// The left end of each right end, if it has one.
    pub right: Vec<Option<u32>>,
    pub ghost pairing: { IsPairing left.items right.items },
}

/// Takes its partner from one end, if there is one.
fn release(mates: &mut Vec<Option<u32>>, one: Option<u32>)
    requires { (k : ℕ) → one ≡ Some k → k < vec_len mates.old }
    ensures freed { mates.new.items ≡ freed mates.old.items one }
    ensures len { vec_len mates.new ≡ vec_len mates.old }
{
    if let Some(one) = one {
        mates[one as usize] = None;
    }
}

impl Pairing {
    /// No end has a partner.
    pub fn none(alloc: Global, left: usize, right: usize) -> Result<Pairing, AllocError>
        ensures left_len { IfOk result (λ p. vec_len p.left ≡ left) }
        ensures right_len { IfOk result (λ p. vec_len p.right ≡ right) }
        ensures alone { IfOk result (λ p. (u : ℕ) → mate p.left.items u ≡ None) }
        ensures free { IfOk result (λ p. free_count p.right.items ≡ right) }
    {
        let left = vec![in alloc; None; left]?;
        let right = vec![in alloc; None; right]?;
        Ok(Pairing { left, right })
    }

    /// Joins a left end to a right end that has no partner. The right end that the left one had is
    /// answered, and has no partner from then on.
    pub fn join(&mut self, left: u32, right: u32) -> Option<u32>
        requires left_in { left < vec_len self.old.left }
        requires right_in { right < vec_len self.old.right }
        requires free { mate self.old.right.items right ≡ None }
        ensures left { self.new.left.items ≡ slice_set self.old.left.items left (Some right) }
        ensures right { self.new.right.items ≡
            slice_set (freed self.old.right.items (mate self.old.left.items left)) right (Some left) }
        ensures left_len { vec_len self.new.left ≡ vec_len self.old.left }
        ensures right_len { vec_len self.new.right ≡ vec_len self.old.right }
        ensures before { result ≡ mate self.old.left.items left }
    {
        let before = self.left[left as usize];
        self.left[left as usize] = Some(right);
        release(&mut self.right, before);
        self.right[right as usize] = Some(left);
        before
    }
}
