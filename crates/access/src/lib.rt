// The rules of access: which marks and grades allow a program, under its certificate, to read, write, run and hand over.
// They are asked here and nowhere else.
#![tactic(auto)]

ghost use Rattle.std.specs.Prelude.{◌≡◌, [], ◌∷◌};
ghost use Rattle.refusals.specs.Refusals.{checked};
ghost use Rattle.model.specs.Access.{mark_rule, grade_rule, read_access, write_access, run_access, hand_access};
ghost use Rattle.model.specs.Orders.{order};

use orders::order::Order;
use refusals::refusal::Refusal;
use register::certificate::Certificate;
use register::label::Label;

// The two orders of a vault. No plainer with a Model: clauses name the meaning of each by itself, as the definitions of the model take them.
#[derive(Drop)]
pub struct Orders<M, G> {
    pub marks: M,
    pub grades: G,
}

impl<M: Order, G: Order> Orders<M, G> {
    // Whether what stands under one label may come under another: into a mark at or above its own, and a grade at or below.
    fn flow(&self, from: Label, into: Label) -> Result<(), Refusal>
        ensures { result ≡ checked (mark_rule (M.Order.below self.now.marks from.mark into.mark) ∷ grade_rule (G.Order.below self.now.grades into.grade from.grade) ∷ []) tt }
    {
        Refusal::MarkRule.unless(self.marks.at_or_below(from.mark, into.mark))?;
        Refusal::GradeRule.unless(self.grades.at_or_below(into.grade, from.grade))
    }

    // Whether a program under the certificate may read a sheet under the label.
    pub fn may_read(&self, holder: Certificate, label: Label) -> Result<(), Refusal>
        ensures { result ≡ checked (read_access (order M.Order self.now.marks) (order G.Order self.now.grades) holder label) tt }
    {
        self.flow(label, holder.reading)
    }

    // Whether it may write one.
    pub fn may_write(&self, holder: Certificate, target: Label) -> Result<(), Refusal>
        ensures { result ≡ checked (write_access (order M.Order self.now.marks) (order G.Order self.now.grades) holder target) tt }
    {
        self.flow(holder.writing, target)
    }

    // Whether it may run one.
    pub fn may_run(&self, holder: Certificate, code: Label) -> Result<(), Refusal>
        ensures { result ≡ checked (run_access (order M.Order self.now.marks) (order G.Order self.now.grades) holder code) tt }
    {
        let runner = Label {
            mark: holder.reading.mark,
            grade: holder.writing.grade,
        };
        self.flow(code, runner)
    }

    // Whether it may hand over to a program under the certificate `next`, whose sheet is under the label.
    pub fn may_hand(
        &self,
        holder: Certificate,
        program: Label,
        next: Certificate,
    ) -> Result<(), Refusal>
        ensures { result ≡ checked (hand_access (order M.Order self.now.marks) (order G.Order self.now.grades) holder program next) tt }
    {
        Refusal::MarkRule.unless(self.marks.at_or_below(program.mark, holder.reading.mark))?;
        self.flow(holder.writing, next.reading)
    }
}
