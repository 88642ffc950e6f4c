//! What an op waits for, found at once.

ghost use Rattle.std.specs.Prelude.{◌≡◌, ◌≢◌, ℕ, ◌+◌, ◌<◌, ◌≤◌, ◌^◌, ◌↔◌, ◌⊎◌, true, false, length, IfOk, MatchOption, Some, slice_index, slice_index_or, slice_set, vec_len};
ghost use Rattle.std.specs.List.{slice_get};
ghost use Rattle.zac_gates.specs.declared.circuit.Op.{Op};
ghost use Rattle.zac_gates.specs.Ops.{MustFollow, IsFencedBetween, is_gate, is_read, is_fence};
ghost use Rattle.zac_gates.specs.Waiting.{gate_qubits, is_gate_on, is_open, passes, IsFirst, AreNextFrom, passed_on, AreNext, AreLinks, IsProgress, IsClosed, IsReady, IsUnmarked, HasQubitsBelow, IsLeastUnmarked};

use crate::Memory;
use crate::circuit::Op;
use std::alloc::Global;

/// What each op waits for, as far as the ops alone tell.
#[derive(Drop)]
pub struct Links {
    /// For each gate the next gate on its first qubit and on its second one, and the number of ops for none.
    pub next: Vec<(u32, u32)>,
    /// For each op the place of the last fence before it, and 0 for none.
    pub fences: Vec<u32>,
}

/// Which ops were performed, and the first ones that were not; the number of ops stands for none.
#[derive(Drop)]
pub struct Progress {
    /// Which ops were performed.
    pub marks: Vec<bool>,
    /// The first gate that was not.
    pub gate: u32,
    /// The first read that was not.
    pub read: u32,
    /// On each qubit the first gate that was not.
    pub on_qubit: Vec<u32>,
}

/// Both qubits of a pair, and the qubit of a one-qubit gate twice.
fn gate_qubits(op: &Op) -> Option<(u32, u32)>
    ensures { result ≡ gate_qubits op.now }
{
    match op {
        Op::One { q, .. } => Some((*q, *q)),
        Op::Two { a, b } => Some((*a, *b)),
        Op::Fence | Op::Read { .. } => None,
    }
}

/// Whether the op is a gate.
fn is_gate(op: &Op) -> bool
    ensures { result ≡ is_gate op.now }
{
    matches!(op, Op::One { .. } | Op::Two { .. })
}

/// Whether the op is a read.
fn is_read(op: &Op) -> bool
    ensures { result ≡ is_read op.now }
{
    matches!(op, Op::Read { .. })
}

/// Whether the op is a fence.
fn is_fence(op: &Op) -> bool
    ensures { result ≡ is_fence op.now }
{
    matches!(op, Op::Fence)
}

/// For each op the place of the last fence before it, and 0 for none.
fn fences_before(alloc: Global, ops: &[Op]) -> Result<Vec<u32>, Memory>
    requires { length ops.now < 2 ^ 32 }
    ensures len { IfOk result (λ f. length f.items ≡ length ops.now) }
    ensures fenced { IfOk result (λ f. (i k : ℕ) → k < length ops.now →
        IsFencedBetween ops.now i k ↔ (i < slice_index f.items k)) }
{
    let mut fences = Vec::with_capacity(alloc, ops.len())?;
    let mut last = 0;
    for (k, op) in ops.iter().enumerate() {
        fences.push(last)?;
        if is_fence(op) {
            last = k as u32;
        }
    }
    Ok(fences)
}

/// The first gate from a place on that was not performed.
fn first_open_gate(ops: &[Op], marks: &[bool], start: usize) -> u32
    requires few { length ops.now < 2 ^ 32 }
    requires marks_len { length marks.now ≡ length ops.now }
    requires start_in { start ≤ length ops.now }
    ensures { IsFirst (is_open is_gate ops.now marks.now) start (length ops.now) result }
{
    let mut at = start;
    while at < ops.len() && (marks[at] || !is_gate(&ops[at])) {
        at += 1;
    }
    at as u32
}

/// The first read from a place on that was not performed.
fn first_open_read(ops: &[Op], marks: &[bool], start: usize) -> u32
    requires few { length ops.now < 2 ^ 32 }
    requires marks_len { length marks.now ≡ length ops.now }
    requires start_in { start ≤ length ops.now }
    ensures { IsFirst (is_open is_read ops.now marks.now) start (length ops.now) result }
{
    let mut at = start;
    while at < ops.len() && (marks[at] || !is_read(&ops[at])) {
        at += 1;
    }
    at as u32
}

/// Takes the op at one place up: it is the first gate on its qubits from there on.
fn link(ops: &[Op], k: usize, next: &mut Vec<(u32, u32)>, first: &mut Vec<u32>)
    requires few { length ops.now < 2 ^ 32 }
    requires k_in { k < length ops.now }
    requires in_range { HasQubitsBelow ops.now (vec_len first.old) }
    requires linked { AreNextFrom ops.now next.old.items first.old.items (k + 1) }
    ensures linked { AreNextFrom ops.now next.new.items first.new.items k }
    ensures first_len { vec_len first.new ≡ vec_len first.old }
{
    if let Some((a, b)) = gate_qubits(&ops[k]) {
        next[k] = (first[a as usize], first[b as usize]);
        first[a as usize] = k as u32;
        first[b as usize] = k as u32;
    }
}

/// The next gates on the two qubits of each gate, and the first gate on each qubit; the number of ops stands for none.
fn next_gates(alloc: Global, ops: &[Op], qubits: u32) -> Result<(Vec<(u32, u32)>, Vec<u32>), Memory>
    requires few { length ops.now < 2 ^ 32 }
    requires in_range { HasQubitsBelow ops.now qubits }
    ensures linked { IfOk result (λ r. AreNextFrom ops.now r.0.items r.1.items 0) }
    ensures first_len { IfOk result (λ r. vec_len r.1 ≡ qubits) }
{
    let none = ops.len() as u32;
    let mut next = vec![in alloc; (none, none); ops.len()]?;
    let mut first = vec![in alloc; none; qubits as usize]?;
    let mut k = ops.len();
    while k > 0 {
        k -= 1;
        link(ops, k, &mut next, &mut first);
    }
    Ok((next, first))
}

/// Which of these a gate waits for first: the first gate, where that stands before the fence, and the first gates on
/// its two qubits, where those stand before it.
fn first_before_gate(gate: u32, fence: u32, on_a: u32, on_b: u32, op: u32) -> Option<u32>
    requires { fence ≤ op }
    ensures { MatchOption result ((fence ≤ gate) × (op ≤ on_a) × (op ≤ on_b))
        (λ w. (w < op) × (gate < fence → w ≤ gate) × (w ≤ on_a) × (w ≤ on_b)
        × (((w ≡ gate) × (gate < fence)) ⊎ ((w ≡ on_a) ⊎ (w ≡ on_b)))) }
{
    let mut least = op;
    if gate < fence {
        least = gate;
    }
    if on_a < least {
        least = on_a;
    }
    if on_b < least {
        least = on_b;
    }
    if least < op { Some(least) } else { None }
}

/// Which of these a read waits for first: the first gate, and the first read, where that stands before it.
fn first_before_read(gate: u32, read: u32, op: u32, none: u32) -> Option<u32>
    requires { op < none }
    ensures { MatchOption result ((none ≤ gate) × (op ≤ read))
        (λ w. (w < none) × (w ≤ gate) × (read < op → w ≤ read)
        × ((w ≡ gate) ⊎ ((w ≡ read) × (read < op)))) }
{
    let mut least = gate;
    if read < op && read < least {
        least = read;
    }
    if least < none { Some(least) } else { None }
}

/// Passes the first gates on two qubits.
fn pass_on(on_qubit: &mut Vec<u32>, qubits: Option<(u32, u32)>, next: (u32, u32))
    requires { (p : ℕ × ℕ) → qubits ≡ Some p → (p.0 < vec_len on_qubit.old) × (p.1 < vec_len on_qubit.old) }
    ensures passed { on_qubit.new.items ≡ passed_on on_qubit.old.items qubits next }
    ensures len { vec_len on_qubit.new ≡ vec_len on_qubit.old }
{
    if let Some((a, b)) = qubits {
        on_qubit[a as usize] = next.0;
        on_qubit[b as usize] = next.1;
    }
}

impl Links {
    /// What each op waits for, and the first gate on each qubit.
    pub fn of(alloc: Global, ops: &[Op], qubits: u32) -> Result<(Links, Vec<u32>), Memory>
        requires few { length ops.now < 2 ^ 32 }
        requires in_range { HasQubitsBelow ops.now qubits }
        ensures links { IfOk result (λ r. AreLinks ops.now r.0) }
        ensures first { IfOk result (λ r. (q : ℕ) → q < qubits →
            IsFirst (λ i. passes (is_gate_on q) (slice_get ops.now i)) 0 (length ops.now) (slice_index r.1.items q)) }
        ensures first_len { IfOk result (λ r. vec_len r.1 ≡ qubits) }
    {
        let fences = fences_before(alloc, ops)?;
        let (next, first) = next_gates(alloc, ops, qubits)?;
        Ok((Links { next, fences }, first))
    }
}

impl Progress {
    /// Nothing was performed; these are the first gates on the qubits.
    pub fn none(alloc: Global, ops: &[Op], first: Vec<u32>) -> Result<Progress, Memory>
        requires few { length ops.now < 2 ^ 32 }
        requires first { (q : ℕ) → q < vec_len first →
            IsFirst (λ i. passes (is_gate_on q) (slice_get ops.now i)) 0 (length ops.now) (slice_index first.items q) }
        ensures progress { IfOk result (λ p. IsProgress ops.now p) }
        ensures unmarked { IfOk result (λ p. (k : ℕ) → IsUnmarked p.marks.items k) }
        ensures qubits { IfOk result (λ p. vec_len p.on_qubit ≡ vec_len first) }
    {
        let marks = vec![in alloc; false; ops.len()]?;
        let gate = first_open_gate(ops, marks.as_slice(), 0);
        let read = first_open_read(ops, marks.as_slice(), 0);
        Ok(Progress {
            marks,
            gate,
            read,
            on_qubit: first,
        })
    }

    /// The least op that was not performed and that this op must follow.
    pub fn awaited(&self, ops: &[Op], links: &Links, op: u32) -> Option<u32>
        requires few { length ops.now < 2 ^ 32 }
        requires op_in { op < length ops.now }
        requires no_fence { slice_get ops.now op ≢ Some Op.Fence }
        requires links { AreLinks ops.now links.now }
        requires progress { IsProgress ops.now self.now }
        requires in_range { HasQubitsBelow ops.now (vec_len self.now.on_qubit) }
        ensures { MatchOption result (IsReady ops.now self.now.marks.items op)
            (IsLeastUnmarked ops.now self.now.marks.items op) }
    {
        match gate_qubits(&ops[op as usize]) {
            Some((a, b)) => {
                let fence = links.fences[op as usize];
                let on_a = self.on_qubit[a as usize];
                let on_b = self.on_qubit[b as usize];
                first_before_gate(self.gate, fence, on_a, on_b, op)
            }
            None => first_before_read(self.gate, self.read, op, ops.len() as u32),
        }
    }

    /// The first gate that is not performed once this op is.
    fn gate_behind(&self, ops: &[Op], op: u32) -> u32
        requires few { length ops.now < 2 ^ 32 }
        requires op_in { op < length ops.now }
        requires progress { IsProgress ops.now self.now }
        ensures { IsFirst (is_open is_gate ops.now (slice_set self.now.marks.items op true)) 0 (length ops.now) result }
    {
        if op == self.gate {
            first_open_gate(ops, self.marks.as_slice(), op as usize + 1)
        } else {
            self.gate
        }
    }

    /// The first read that is not performed once this op is.
    fn read_behind(&self, ops: &[Op], op: u32) -> u32
        requires few { length ops.now < 2 ^ 32 }
        requires op_in { op < length ops.now }
        requires progress { IsProgress ops.now self.now }
        ensures { IsFirst (is_open is_read ops.now (slice_set self.now.marks.items op true)) 0 (length ops.now) result }
    {
        if op == self.read {
            first_open_read(ops, self.marks.as_slice(), op as usize + 1)
        } else {
            self.read
        }
    }

    /// Performs the op.
    pub fn perform(&mut self, ops: &[Op], links: &Links, op: u32)
        requires few { length ops.now < 2 ^ 32 }
        requires op_in { op < length ops.now }
        requires links { AreLinks ops.now links.now }
        requires progress { IsProgress ops.now self.old }
        requires in_range { HasQubitsBelow ops.now (vec_len self.old.on_qubit) }
        requires unmarked { IsUnmarked self.old.marks.items op }
        requires ready { IsReady ops.now self.old.marks.items op }
        requires closed { IsClosed ops.now self.old.marks.items }
        ensures progress { IsProgress ops.now self.new }
        ensures marks { self.new.marks.items ≡ slice_set self.old.marks.items op true }
        ensures qubits { vec_len self.new.on_qubit ≡ vec_len self.old.on_qubit }
    {
        let at = op as usize;
        let gate = self.gate_behind(ops, op);
        let read = self.read_behind(ops, op);
        pass_on(&mut self.on_qubit, gate_qubits(&ops[at]), links.next[at]);
        self.marks[at] = true;
        self.gate = gate;
        self.read = read;
    }
}
