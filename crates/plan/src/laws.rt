ghost use Rattle.std.specs.Prelude.{◌≡◌, List, ℕ};
ghost use Rattle.plan.specs.declared.error.PlanError.{PlanError};
ghost use Rattle.plan.specs.Faults.{IsPlanFault};
ghost use Rattle.plan.specs.Plan.{IsPlan, plan_text};
ghost use Rattle.plan.specs.Record.{RecordValue, IsRecord, build_record_text, IsRecordFault};
ghost use Rattle.plan.specs.Values.{PlanValue};

/// No text is that of two plans. (That no plan has two is said by the text's being a function.) It
/// does nothing.
pub fn spells_one_plan()
    ensures { (p q : PlanValue) → IsPlan p → IsPlan q → plan_text p ≡ plan_text q → p ≡ q }
{}

/// A text has one first fault at most, and the text of a plan has none. It does nothing.
pub fn faults_are_single_valued()
    ensures once { (text : List ℕ) (e f : PlanError) → IsPlanFault text e → IsPlanFault text f
        → e ≡ f }
    ensures none { (plan : PlanValue) (e : PlanError) → IsPlan plan
        → ¬ IsPlanFault (plan_text plan) e }
{}

/// No text is that of two records of one plan. It does nothing.
pub fn spells_one_record()
    ensures { (r s : RecordValue) → IsRecord r → IsRecord s → r.names ≡ s.names
        → build_record_text r ≡ build_record_text s
        → r ≡ s }
{}

/// A text has one first fault at most as a record of a plan with these names, and the text of such
/// a record has none. It does nothing.
pub fn record_faults_are_single_valued()
    ensures once { (names : List (List ℕ)) (text : List ℕ) (e f : PlanError)
        → IsRecordFault names text e
        → IsRecordFault names text f
        → e ≡ f }
    ensures none { (r : RecordValue) (e : PlanError) → IsRecord r
        → ¬ IsRecordFault r.names (build_record_text r) e }
{}
