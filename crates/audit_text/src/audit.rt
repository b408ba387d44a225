ghost use Rattle.std.specs.Prelude.{◌≡◌, ◌++◌, ◌∷◌, [], List as Values, length, true, None, Some, Err, OnOk, IfOk, IfErr};
ghost use Rattle.audit_clients.specs.Given.{Gave};
ghost use Rattle.audit_model.specs.Broken.{broken};
ghost use Rattle.audit_model.specs.Order.{in_order};
ghost use Rattle.audit_model.specs.Takes.{takes_so};
ghost use Rattle.audit_model.specs.Summaries.{summary as summary_of};
ghost use Rattle.audit_model.specs.declared.fault.AuditFault.{AuditFault as Fault};
ghost use Rattle.audit_model.specs.declared.fault.AuditFault.TheVariants.{NoMemory as no_memory};
ghost use Rattle.audit_text.specs.Standing.{Fails, IsFaultOf, MadeBy, MakesAll, Stands};
ghost use Rattle.script_text.specs.declared.item.Item.{Item as Told};

use crate::made::Made;
use audit_clients::Given;
use audit_lives::about;
use audit_model::{AuditFault, Summary};
use script_text::Item;
use std::alloc::Global;

/// The audit of a transcript, as far as its items were taken.
#[derive(Drop)]
pub struct Audit {
    alloc: Global,
    made: Option<Made>,
    given: Given,
    /// The fault that ended it.
    fault: Option<AuditFault>,
    /// What is reported of the items.
    report: Summary,
}

impl Audit {
    /// The audit of a transcript before its first item. It takes no memory.
    pub fn new(alloc: Global) -> Audit
        ensures { Stands result [] }
    {
        Audit {
            alloc,
            made: None,
            given: Given::new(alloc),
            fault: None,
            report: Summary {
                items: 0,
                unsent: 0,
                watches: 0,
            },
        }
    }

    /// The number of items that it has taken.
    pub fn items(&self) -> u64
        ensures stands { (before : Values Told) → Stands self.now before → result ≡ length before }
        ensures fails { (before : Values Told) (f : Fault) → Fails self.now before f → result ≡ length before }
    {
        self.report.items
    }

    /// Takes the next item, or says which rule it breaks: it isn't in order; its answer or its message isn't the store's; it is a reply
    /// with no call of its own that isn't what the store holds; a watch takes what isn't next for it; or a session expires too early.
    /// Of several the first in this order is named. Behind a fault each further item has that fault again.
    pub fn item(&mut self, item: Item) -> Result<(), AuditFault>
        ensures taken { OnOk result ((before : Values Told) → Stands self.old before → (broken before item ≡ None) × Stands self.new (before ++ item ∷ [])) }
        ensures fault { IfErr result (λ f. (before : Values Told) → Stands self.old before → IsFaultOf f (broken before item) × Fails self.new before f) }
        ensures again { (before : Values Told) (f : Fault) → Fails self.old before f → (result ≡ Err f) × (self.new ≡ self.old) }
    {
        if let Some(fault) = self.fault {
            return Err(fault);
        }
        match self.follow(&item) {
            Ok(()) => self.keep(item),
            Err(fault) => {
                self.fault = Some(fault);
                Err(fault)
            }
        }
    }

    /// What is reported of the items that it has taken, also behind a fault. It takes no memory.
    pub fn finish(self) -> Summary
        ensures stands { (before : Values Told) → Stands self before → result ≡ summary_of before }
        ensures fails { (before : Values Told) (f : Fault) → Fails self before f → result ≡ summary_of before }
    {
        self.report
    }

    /// Looks at the next item, which isn't kept yet.
    fn follow(&mut self, item: &Item) -> Result<(), AuditFault>
        ensures given { self.new.given ≡ self.old.given }
        ensures whole { self.new.fault ≡ self.old.fault }
        ensures report { self.new.report ≡ self.old.report }
        ensures taken { OnOk result ((before : Values Told) → Stands self.old before → (broken before item.now ≡ None) × MadeBy self.new.made (before ++ item.now ∷ [])) }
        ensures fault { IfErr result (λ f. (before : Values Told) → Stands self.old before → IsFaultOf f (broken before item.now)) }
    {
        match &mut self.made {
            Some(made) => made.follow(item, &self.given),
            None => self.begin(item),
        }
    }

    /// Looks at the first item.
    fn begin(&mut self, item: &Item) -> Result<(), AuditFault>
        ensures given { self.new.given ≡ self.old.given }
        ensures whole { self.new.fault ≡ self.old.fault }
        ensures report { self.new.report ≡ self.old.report }
        ensures taken { OnOk result ((broken [] item.now ≡ None) × MadeBy self.new.made (item.now ∷ [])) }
        ensures fault { IfErr result (λ f. IsFaultOf f (broken [] item.now)) }
    {
        match first(self.alloc, item) {
            Ok(made) => {
                self.made = Some(made);
                Ok(())
            }
            Err(fault) => Err(fault),
        }
    }

    /// Keeps what the item gives, which it has looked at. Where memory was wanting that ends it.
    fn keep(&mut self, item: Item) -> Result<(), AuditFault>
        ensures ok { OnOk result ((self.new.made ≡ self.old.made) × (self.new.fault ≡ self.old.fault) × ((items : Values Told) → in_order items item ≡ true → takes_so items item ≡ true → Gave self.old.given items → Gave self.new.given (items ++ item ∷ []) × (self.new.report ≡ summary_of (items ++ item ∷ [])))) }
        ensures err { IfErr result (λ f. (f ≡ no_memory) × (self.new.fault ≡ Some f) × (self.new.report ≡ self.old.report)) }
    {
        match self.given.take(item) {
            Ok(()) => {
                self.report = self.given.summary();
                Ok(())
            }
            Err(_) => {
                self.fault = Some(AuditFault::NoMemory);
                Err(AuditFault::NoMemory)
            }
        }
    }
}

/// What a first item makes.
#[tactic(auto, unfolding(audit_model::specs::Broken::breaks_store))]
fn first(alloc: Global, item: &Item) -> Result<Made, AuditFault>
    ensures made { IfOk result (λ made. (broken [] item.now ≡ None) × MakesAll made (item.now ∷ [])) }
    ensures fault { IfErr result (λ f. IsFaultOf f (broken [] item.now)) }
{
    match item {
        Item::World { members, .. } => {
            if *members == 0 || 9 < *members {
                return Err(AuditFault::Order(about(item)));
            }
            Ok(Made::new(alloc, *members)?)
        }
        _ => Err(AuditFault::Order(about(item))),
    }
}
