//! Sources made by a generator, to try the compiler with.

ghost use Rattle.std.specs.Prelude.{◌≡◌, ◌+◌, ◌*◌, ◌^◌, ◌<◌, ◌≤◌, ◌++◌, IfOk, OnOk};
ghost use Rattle.zac_flow.specs.Generator.{next_state, first_of, second_of, pair_lines, made_source};

use std::alloc::Global;
use zac_fault::{Part, add_parts};
use zac_gates::{Bytes, List, Memory};

/// The state of the generator after a draw.
fn next_state(state: u32) -> u32
    ensures value { result ≡ next_state state }
    ensures below { result < 2 ^ 31 }
{
    ((u64::from(state) * 1_103_515_245 + 12_345) % 2_147_483_648) as u32
}

/// The first qubit of a pair of n qubits, drawn at a state.
fn first_qubit(n: u32, state: u32) -> u32
    requires { 2 ≤ n }
    ensures value { result ≡ first_of n state }
    ensures below { result < n }
{
    state / 65_536 % n
}

/// The second qubit of the pair, drawn at the next state.
fn second_qubit(n: u32, first: u32, state: u32) -> u32
    requires { 2 ≤ n }
    ensures value { result ≡ second_of n first state }
{
    let drawn = state / 65_536 % (n - 1);
    if drawn < first { drawn } else { drawn + 1 }
}

/// Adds the lines of a pair.
fn add_pair(text: &mut Vec<u8>, first: u32, second: u32) -> Result<(), Memory>
    ensures { OnOk result (text.new.items ≡ text.old.items ++ pair_lines first second) }
{
    add_parts(
        text,
        &[
            Part::Text("t q["),
            Part::Number(u128::from(first)),
            Part::Text("];\ncx q["),
            Part::Number(u128::from(first)),
            Part::Text("],q["),
            Part::Number(u128::from(second)),
            Part::Text("];\n"),
        ],
    )
}

/// The source of n qubits, 2 to 4,096, and k pairs, at most 50,000: a gate `t` and a `cx` for each pair of qubits that the
/// generator draws. It takes time in proportion to k.
pub fn make_text(alloc: Global, n: u32, k: u32) -> Result<Bytes, Memory>
    requires least { 2 ≤ n }
    requires most { n ≤ 4096 }
    requires few { k ≤ 50000 }
    ensures { IfOk result (λ text. text ≡ made_source n k) }
{
    let mut text = Vec::new(alloc);
    add_parts(
        &mut text,
        &[
            Part::Text("OPENQASM 2.0;\ninclude \"qelib1.inc\";\nqreg q["),
            Part::Number(u128::from(n)),
            Part::Text("];\n"),
        ],
    )?;
    let mut state = 1;
    for _drawn in 0..k {
        state = next_state(state);
        let first = first_qubit(n, state);
        state = next_state(state);
        add_pair(&mut text, first, second_qubit(n, first, state))?;
    }
    Ok(List::of(text))
}
