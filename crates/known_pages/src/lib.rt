// Known answers of the page store: worked cases of its check as one table, and three sheets drawn.
#![tactic(auto)]

ghost use Rattle.known_pages.specs.Cases.{DrawnSheets, KnownAnswers};

// The definitions give each answer of the table, and the sheets that are drawn.
pub fn answers_stand()
    ensures answers { KnownAnswers }
    ensures drawn { DrawnSheets }
{}
