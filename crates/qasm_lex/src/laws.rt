//! What the definitions say of the tokens of a source, as laws. Each holds of every source, or of every list of tokens.

ghost use Rattle.std.specs.Prelude.{◌≡◌, ◌⊎◌, ◌+◌, ◌≤◌, ℕ, List, Some, length};
ghost use Rattle.std.specs.List.{flat_map};
ghost use Rattle.qasm_lex.specs.Cuts.{AreTokensOf, IsLexFault, Piece, piece_text, tokens_of};
ghost use Rattle.qasm_lex.specs.Cutting.{cut};
ghost use Rattle.qasm_lex.specs.Lexed.{AreInOrder, Lexed};
ghost use Rattle.qasm_lex.specs.declared.token.Token.{Token};

/// Each source has one list of tokens, or a fault at one byte, and never both.
pub fn tokens_or_one_fault()
    ensures some { (source : List ℕ) → ((lexed : Lexed) × AreTokensOf source lexed) ⊎ ((at : ℕ) × IsLexFault source at) }
    ensures one_list { (source : List ℕ) (one other : Lexed) → AreTokensOf source one → AreTokensOf source other → one ≡ other }
    ensures one_fault { (source : List ℕ) (one other : ℕ) → IsLexFault source one → IsLexFault source other → one ≡ other }
    ensures not_both { (source : List ℕ) (lexed : Lexed) (at : ℕ) → AreTokensOf source lexed → IsLexFault source at → ⊥ }
{}

/// Tokens in order are no more than the bytes that they lie in.
pub fn tokens_are_few()
    ensures { (low : ℕ) (tokens : List Token) (end : ℕ) → AreInOrder low tokens end → low + length tokens ≤ end }
{}

/// The pieces that a proof computes of a source are its text, and give its tokens.
pub fn cut_gives_tokens()
    ensures text { (n : ℕ) (source : List ℕ) (pieces : List Piece) → cut n source ≡ Some pieces
        → source ≡ flat_map piece_text pieces }
    ensures tokens { (n : ℕ) (source : List ℕ) (pieces : List Piece) → cut n source ≡ Some pieces
        → AreTokensOf source (record { tokens = tokens_of 0 pieces; source_length = length source }) }
{}
