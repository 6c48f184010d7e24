//! Laws of the grammar of expressions.
//! `expressions_are_what_is_due`: the tokens of an expression are what is due,
//! up to what may go on.
//! `no_expression_has_a_fault`: no token of an expression breaks a rule.
//! `an_expression_is_read_in_one_way`: no two expressions have the same pieces.
//! `faults_go_wrong`: at a token that breaks a rule no expression goes on, or a limit is passed.
//! `an_expression_ends_where_it_may`: nothing need be due exactly after a whole expression.
ghost use Rattle.std.specs.Prelude.{◌≡◌, ℕ, List, [], ◌∷◌, ◌++◌, ◌⊎◌, Some, None, true, false};
ghost use Rattle.sj_lang.specs.Term.{Term};
ghost use Rattle.sj_grammar.specs.declared.tokens.Rule.{Rule};
ghost use Rattle.sj_lang.specs.Limits.{Limits};
ghost use Rattle.sj_grammar.specs.Tables.{Spelling};
ghost use Rattle.sj_grammar.specs.Positions.{Pieces};
ghost use Rattle.sj_grammar.specs.Layers.{step, may_end, rule_of};
ghost use Rattle.sj_grammar.specs.Expressions.{IsExpression, operand_count};
ghost use Rattle.sj_grammar.specs.ExpressionDues.{ExpressionDue, whole, times, plus, compare, expression_layer};
ghost use Rattle.sj_expr.specs.Ends.{Ends};
ghost use Rattle.sj_expr.specs.Viable.{IsSomeExpression, IsBrokenAt};
ghost use Rattle.sj_expr.specs.Laws.{Leads};

pub fn expressions_are_what_is_due()
    ensures { (L : Limits) (names : Spelling) (t : Term) (ps : Pieces) (n : ℕ) (ds : List ExpressionDue)
        → IsExpression L names t ps
        → Leads L n (whole ∷ ds) ps (operand_count t) (times 0 ∷ plus 0 ∷ compare 0 ∷ ds)
        ⊎ Leads L n (whole ∷ ds) ps (operand_count t) (times 0 ∷ plus 0 ∷ ds) }
{}

pub fn no_expression_has_a_fault()
    ensures { (L : Limits) (names : Spelling) (t : Term) (front back : Pieces) (s : List ℕ) (n m : ℕ)
        (ds due : List ExpressionDue) → IsExpression L names t (front ++ s ∷ back)
        → Leads L n (whole ∷ ds) front m due → rule_of (step expression_layer L m due s) ≡ None }
{}

pub fn an_expression_is_read_in_one_way()
    ensures { (L : Limits) (names : Spelling) (t u : Term) (ps qs x y : Pieces)
        → IsExpression L names t ps → IsExpression L names u qs → ps ++ x ≡ qs ++ y
        → Ends x → Ends y → (t ≡ u) × (ps ≡ qs) × (x ≡ y) }
{}

pub fn faults_go_wrong()
    ensures { (L : Limits) (ps : Pieces) (n m : ℕ) (due : List ExpressionDue) (s : List ℕ) (rule : Rule)
        → Leads L n (whole ∷ []) ps m due → rule_of (step expression_layer L m due s) ≡ Some rule
        → IsBrokenAt ps s rule }
{}

pub fn an_expression_ends_where_it_may()
    ensures may { (L : Limits) (ps : Pieces) (n m : ℕ) (due : List ExpressionDue)
        → Leads L n (whole ∷ []) ps m due → may_end expression_layer due ≡ true → IsSomeExpression ps }
    ensures only { (L : Limits) (ps : Pieces) (n m : ℕ) (due : List ExpressionDue)
        → Leads L n (whole ∷ []) ps m due → may_end expression_layer due ≡ false
        → IsSomeExpression ps → ⊥ }
{}
