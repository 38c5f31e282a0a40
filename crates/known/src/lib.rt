// Known answers: worked cases of the orders and of the example vault, one table for all.
#![tactic(auto)]

ghost use Rattle.known.specs.Cases.{KnownAnswers};

// The definitions give each answer of the table.
pub fn answers_stand()
    ensures { KnownAnswers }
{}
