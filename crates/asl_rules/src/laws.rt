// Which rules some texts are. There is no code here.
ghost use Rattle.std.specs.Prelude.{◌≡◌, ℕ, List, [], codes, Ok, Err};
ghost use Rattle.asl_rules.specs.Reading.{always_in, undo_in};
ghost use Rattle.asl_rules.specs.Grammar.{IsFormula, IsPair};
ghost use Rattle.asl_rules.specs.Tree.{Formula, conclusion, implies, one, or, alone, and, atom, denied, group};
ghost use Rattle.asl_rules.specs.declared.atom.Task.{Task};
ghost use Rattle.asl_rules.specs.declared.atom.Status.TheVariants.{Failed as HasFailed};
ghost use Rattle.asl_rules.specs.declared.atom.Atom.TheVariants.{Done, Returned, Failed, Invoked, Status, Error};
ghost use Rattle.asl_rules.specs.declared.rule.Rule.TheVariants.{Always, Undo};
ghost use Rattle.asl_rules.specs.declared.fault.RuleFault.TheVariants.{Syntax, NoSuchState};

/// A text that spells a formula (`specs/Grammar.antt`) is read as it.
pub fn a_formula_is_read_as_it_is_spelled()
    ensures { (ts : List Task) (f : Formula) (t : List ℕ) → IsFormula ts f t → always_in ts t ≡ Ok (Always f) }
{}

/// A text that spells two names with `=` between them is read as their rule.
pub fn a_pair_is_read_as_it_is_spelled()
    ensures { (ts : List Task) (a b : Task) (t : List ℕ) → IsPair ts a b t → undo_in ts t ≡ Ok (Undo a b) }
{}

/// `not` binds closest, then `and`, `or` and `=>`, which associates to the right; parentheses go before all.
pub fn operators_bind_so()
    ensures and_before_or { always_in [] (codes "error(\"a\")or error(\"b\") and not error(\"c\")")
        ≡ Ok (Always (conclusion (or (alone (atom (Error (codes "a")))) (one (and (atom (Error (codes "b"))) (alone (denied (atom (Error (codes "c")))))))))) }
    ensures or_before_implies { always_in [] (codes "error(\"a\") => error(\"b\") or error(\"c\")")
        ≡ Ok (Always (implies (one (alone (atom (Error (codes "a"))))) (conclusion (or (alone (atom (Error (codes "b")))) (one (alone (atom (Error (codes "c"))))))))) }
    ensures implies_to_the_right { always_in [] (codes "error(\"a\") => error(\"b\") => error(\"c\")")
        ≡ Ok (Always (implies (one (alone (atom (Error (codes "a"))))) (implies (one (alone (atom (Error (codes "b"))))) (conclusion (one (alone (atom (Error (codes "c"))))))))) }
    ensures not_before_and { always_in [] (codes "not error(\"a\") and error(\"b\")")
        ≡ Ok (Always (conclusion (one (and (denied (atom (Error (codes "a")))) (alone (atom (Error (codes "b")))))))) }
    ensures parentheses { always_in [] (codes "not (error(\"a\") or error(\"b\"))")
        ≡ Ok (Always (conclusion (one (alone (denied (group (conclusion (or (alone (atom (Error (codes "a")))) (one (alone (atom (Error (codes "b"))))))))))))) }
{}

/// A fault is told at the first byte over which no rule goes on.
pub fn faults_are_told_so()
    ensures early { always_in [] (codes "error(\"a\") and") ≡ Err (Syntax 14) }
    ensures none { always_in [] [] ≡ Err (Syntax 0) }
    ensures word { always_in [] (codes "errors(\"a\")") ≡ Err (Syntax 5) }
    ensures operand { always_in [] (codes "error(\"a\") error(\"b\")") ≡ Err (Syntax 11) }
    ensures name { always_in [] (codes "error(\"\\q\")") ≡ Err (Syntax 8) }
    ensures closed { always_in [] (codes "error(\"a\"))") ≡ Err (Syntax 10) }
    ensures open { always_in [] (codes "(error(\"a\")") ≡ Err (Syntax 11) }
    ensures number { always_in [] (codes "returned(\"A\",4294967296)") ≡ Err (Syntax 22) }
    ensures state { always_in [] (codes "done( \"A\") and done(\"B\")") ≡ Err (NoSuchState 6) }
    ensures syntax_first { always_in [] (codes "done(\"A\") and") ≡ Err (Syntax 13) }
    ensures undo { undo_in [] (codes "\"A\" \"B\"") ≡ Err (Syntax 4) }
{}
