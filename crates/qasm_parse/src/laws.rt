//! What the definitions say of statements, as laws. Each holds of every list of tokens, or of every source.

ghost use Rattle.std.specs.Prelude.{◌≡◌, ◌⊎◌, ℕ, List, Some, length};
ghost use Rattle.qasm_lex.specs.Cuts.{AreTokensOf};
ghost use Rattle.qasm_lex.specs.Lexed.{Lexed};
ghost use Rattle.qasm_lex.specs.declared.token.Token.{Token};
ghost use Rattle.qasm_parse.specs.Computing.{computed_statements};
ghost use Rattle.qasm_form.specs.declared.stmt.Stmt.{Stmt};
ghost use Rattle.qasm_form.specs.Statements.{FallInto, IsStatement, IsSyntaxFault};
ghost use Rattle.qasm_form.specs.Symbols.{Lexeme, lexemes_of};

use qasm_lex::laws::cut_gives_tokens;

/// At a place among tokens one statement stands, with one place behind it, or one fault does, and never both.
pub fn statement_or_one_fault()
    ensures some { (tokens : List Lexeme) (from end : ℕ) → ((s : Stmt) × (next : ℕ) × IsStatement tokens from s next)
        ⊎ ((at : ℕ) × IsSyntaxFault tokens from end at) }
    ensures one_statement { (tokens : List Lexeme) (from : ℕ) (s t : Stmt) (next other : ℕ) → IsStatement tokens from s next
        → IsStatement tokens from t other → (s ≡ t) × (next ≡ other) }
    ensures one_fault { (tokens : List Lexeme) (from end one other : ℕ) → IsSyntaxFault tokens from end one
        → IsSyntaxFault tokens from end other → one ≡ other }
    ensures not_both { (tokens : List Lexeme) (from end : ℕ) (s : Stmt) (next at : ℕ) → IsStatement tokens from s next
        → IsSyntaxFault tokens from end at → ⊥ }
{}

/// The tokens from a place up to another fall into statements in one way at most.
pub fn tokens_fall_in_one_way()
    ensures { (tokens : List Lexeme) (from : ℕ) (ss ts : List Stmt) (to : ℕ) → FallInto tokens from ss to
        → FallInto tokens from ts to → ss ≡ ts }
{}

/// The grammar sees as many tokens as the source has.
pub fn each_token_is_seen()
    ensures { (source : List ℕ) (tokens : List Token) → length (lexemes_of source tokens) ≡ length tokens }
{}

/// The statements that a proof computes of a source are those into which its tokens fall.
pub fn computed_statements_stand()
    ensures { (n : ℕ) (source : List ℕ) (ss : List Stmt) → computed_statements n source ≡ Some ss
        → (lexed : Lexed) × AreTokensOf source lexed × FallInto (lexemes_of source lexed.tokens) 0 ss (length lexed.tokens) }
{
    cut_gives_tokens();
}
