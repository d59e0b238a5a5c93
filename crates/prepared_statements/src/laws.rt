//! What holds of filled texts.
ghost use Rattle.std.specs.Prelude.{◌≡◌, ℕ, List, Option};
ghost use Rattle.std.specs.List.{AllByRecursion};
ghost use Rattle.sql_lexer.specs.Value.{Value};
ghost use Rattle.sql_lexer.specs.declared.token.Token.{Token};
ghost use Rattle.sql_lexer.specs.Lexemes.{Lexeme, lexemes_of};
ghost use Rattle.sql_lexer.specs.Tokens.{Lexes};
ghost use Rattle.sql_parser.specs.Grammar.{ReadsLiteral};
ghost use Rattle.statement_values.specs.declared.ParameterType.{ParameterType};
ghost use Rattle.statement_values.specs.Executions.{Executes};
ghost use Rattle.prepared_statements.specs.Texts.{filled};
ghost use Rattle.prepared_statements.specs.Tokens.{IsLiteral, literal_said, PiecesSay, said_with};

// Promise: A client's values are never read as SQL: what a filled text says are the tokens of its pieces, and between them those of one literal of the
// grammar for each value, whatever its bytes; and what executes a statement are such values
/// A filled text says what its pieces say, and between them what the literals of its values say.
pub fn values_are_literals()
    ensures said { (pieces : List (List ℕ)) (said : List (List Lexeme)) (values : List Value) → PiecesSay pieces said → AllByRecursion IsLiteral values
        → (tokens : List Token) × Lexes (filled pieces values) tokens × (lexemes_of (filled pieces values) tokens ≡ said_with said values) }
    ensures literals { (v : Value) → IsLiteral v → ReadsLiteral (literal_said v) v }
    ensures sent { (kept : List ParameterType) (long : List (Option (List ℕ))) (bytes : List ℕ) (types : List ParameterType) (values : List Value)
        → Executes kept long bytes types values → AllByRecursion IsLiteral values }
{}
