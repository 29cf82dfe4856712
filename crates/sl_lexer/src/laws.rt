ghost use Rattle.std.specs.Prelude.{◌≡◌, List, ℕ, length};
ghost use Rattle.sl_base.specs.Pieces.{TokenRule};
ghost use Rattle.sl_base.specs.Tokens.{Piece, Cut, Tokens, TokenFault, TokensAscend};
ghost use Rattle.sl_base.specs.declared.token.Token.{Token as TokenValue};

/// A text has one cut at most.
pub fn one_cut()
    ensures { (text : List ℕ) (ps qs : List Piece) → Cut text ps (length text) → Cut text qs (length text) → ps ≡ qs }
{}

/// A text has one list of tokens at most, or one fault at most, and never both.
pub fn one_answer()
    ensures one_tokens { (text : List ℕ) (ts us : List TokenValue) → Tokens text ts → Tokens text us → ts ≡ us }
    ensures one_fault { (text : List ℕ) (rule other : TokenRule) (at there : ℕ) →
        TokenFault text rule at → TokenFault text other there → (rule ≡ other) × (at ≡ there) }
    ensures not_both { (text : List ℕ) (ts : List TokenValue) (rule : TokenRule) (at : ℕ) →
        Tokens text ts → TokenFault text rule at → ⊥ }
{}

/// The tokens of a text come in the order of their places, so no two have one place.
pub fn tokens_ascend()
    ensures { (text : List ℕ) (tokens : List TokenValue) → Tokens text tokens → TokensAscend tokens }
{}
