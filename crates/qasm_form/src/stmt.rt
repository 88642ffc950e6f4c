//! Statements as values. All but `Expr` are plain data: whoever has the parts may make one, and what their fields say of a
//! source is said where they are read from it. `Expr` keeps the rules of an expression by itself, wherever it was made.

use std::marker::Model;
use zac_gates::{Bytes, List};

/// A function in an expression.
#[derive(Clone, Copy)]
pub enum Function {
    Sin,
    Cos,
    Tan,
    Exp,
    Ln,
    Sqrt,
}

/// A node of an expression in postfix order: an operator stands behind its operands.
#[derive(Drop)]
pub enum Node {
    /// A whole number or a real, as the source has it. In an `Expr` the text is one digit or more, or a real.
    Number { text: Bytes },
    /// The number pi.
    Pi,
    /// A parameter, and its offset.
    Name { name: Bytes, at: u32 },
    /// The operand before it with the other sign.
    Negate,
    /// The function of the operand before it.
    Apply { function: Function },
    /// The sum of the two operands before it.
    Plus,
    /// Their difference.
    Minus,
    /// Their product.
    Times,
    /// Their quotient.
    Over,
    /// The first to the power of the second.
    Power,
}

/// An expression as its nodes in postfix order: each operator has its operands before it, and one operand is left at the
/// end. The text of each number is one digit or more, or a real. Contracts see the list of the nodes.
#[derive(Drop)]
pub struct Expr {
    /// The nodes.
    pub nodes: List<Node>,
}

impl Model for Expr {
    ghost use Rattle.std.specs.Prelude.{List};
    ghost use Rattle.qasm_form.specs.declared.stmt.Node.{Node};

    ghost Value = { List Node };

    ghost use Rattle.qasm_form.specs.Numbers.{IsExpression};

    ghost view = { λ e. e.nodes };

    ghost invariant = { λ e. IsExpression e.nodes };
}

impl Expr {
    ghost use Rattle.std.specs.Prelude.{◌≡◌};
    ghost use Rattle.std.specs.List.{AllByRecursion};
    ghost use Rattle.qasm_form.specs.Numbers.{HasNumber};
    ghost use Rattle.qasm_form.specs.Postfix.{IsPostfix};

    /// The nodes in postfix order. Each number's text is one digit or more, or a real.
    pub fn as_slice(&self) -> &[Node]
        ensures nodes { result.now ≡ self.now }
        ensures postfix { IsPostfix self.now }
        ensures numbers { AllByRecursion HasNumber self.now }
    {
        self.nodes.as_slice()
    }
}

/// A name with its offset. Both are plain data.
#[derive(Drop)]
pub struct Named {
    /// The name.
    pub word: Bytes,
    /// The offset of its first byte.
    pub at: u32,
}

/// An argument: a register, or with an index one of its places. All fields are plain data.
#[derive(Drop)]
pub struct Arg {
    /// The register's name, or an argument's in a body.
    pub word: Bytes,
    /// The index; one past 2^64 - 1 stands as 2^64 - 1.
    pub index: Option<u64>,
    /// The offset of the name.
    pub at: u32,
}

/// A call: of `U`, `CX`, `barrier` or a gate. All fields are plain data, but that each angle is an `Expr`, which keeps the
/// rules of an expression.
#[derive(Drop)]
pub struct BodyOp {
    /// `U`, `CX`, `barrier` or the gate's name.
    pub name: Bytes,
    /// The name's offset.
    pub at: u32,
    /// The angles.
    pub exprs: List<Expr>,
    /// The arguments.
    pub args: List<Arg>,
}

/// A statement. All fields are plain data: texts, sizes and offsets as they stand in the source, which no type bounds
/// further. Only the angles of calls, in `call` and in `body`, are of a type that keeps a rule, `Expr`.
#[derive(Drop)]
pub enum Stmt {
    /// The version, which opens a source. The offset is that of the number.
    Version {
        number: Bytes,
        at: u32,
    },
    /// An include, with the name between the quotes and the offset of the string.
    Include {
        name: Bytes,
        at: u32,
    },
    /// A register of qubits. A size past 2^64 - 1 stands as 2^64 - 1.
    Qreg {
        name: Bytes,
        size: u64,
        at: u32,
    },
    /// A register of bits. A size past 2^64 - 1 stands as 2^64 - 1.
    Creg {
        name: Bytes,
        size: u64,
        at: u32,
    },
    /// The declaration of a gate, with the offset of its name.
    Gate {
        name: Bytes,
        params: List<Named>,
        args: List<Named>,
        body: List<BodyOp>,
        at: u32,
    },
    /// The declaration of a gate without a body, with the offset of its name.
    Opaque {
        name: Bytes,
        params: List<Named>,
        args: List<Named>,
        at: u32,
    },
    /// A call of a gate.
    Call {
        call: BodyOp,
    },
    /// A measurement, with the offset of its first word.
    Measure {
        from: Arg,
        into: Arg,
        at: u32,
    },
    /// A reset, with the offset of its first word.
    Reset {
        arg: Arg,
        at: u32,
    },
    /// A barrier, with the offset of its first word.
    Barrier {
        args: List<Arg>,
        at: u32,
    },
    /// A statement under a condition, of which the offset of its first word is kept.
    If {
        at: u32,
    },
}
