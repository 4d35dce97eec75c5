ghost use Rattle.std.specs.Prelude.{◌≡◌, ◌<◌, ◌^◌, ◌++◌, ◌∷◌, [], IfOk, OnOk, OnErr, List, length, slice_get, Some};
ghost use Rattle.std.specs.Option.{option_copied};
ghost use Rattle.fpl_log.specs.Slim.{AllNameEarlier, slim_steps};

use crate::slimming::slim_of;
use crate::{ClosedList, StepList};
use std::alloc::{AllocError, Global};
use std::marker::Model;

/// The steps of one weight, and the closed rows that they lead to.
#[derive(Drop)]
pub struct Section {
    pub weight: u32,
    /// How many origins the weight has, where the section tells it.
    pub origins: Option<u64>,
    pub steps: StepList,
    pub closed: ClosedList,
}

impl Section {
    pub fn copy(&self, alloc: Global) -> Result<Section, AllocError>
        ensures { IfOk result (λ s. s ≡ self.now) }
    {
        Ok(Section {
            weight: self.weight,
            origins: self.origins,
            steps: self.steps.copy(alloc)?,
            closed: self.closed.copy(alloc)?,
        })
    }

    /// Leaves out each Insert step with scale 0 and each term that cites one, numbers the rest in
    /// order, and notes how many origins the weight has. On a refusal the section is gone.
    pub fn slim(self, alloc: Global, origins: u64) -> Result<Section, AllocError>
        requires { AllNameEarlier 0 self.steps }
        ensures { IfOk result (λ s. s ≡ record self { origins = Some origins; steps = slim_steps [] 0 self.steps }) }
    {
        let steps = slim_of(alloc, self.steps)?;
        Ok(Section {
            weight: self.weight,
            origins: Some(origins),
            steps,
            closed: self.closed,
        })
    }
}

/// The sections of the weights from 1 on.
#[derive(Drop)]
pub struct Sections {
    items: Vec<Section>,
}

impl Model for Sections {
    ghost use Rattle.std.specs.Prelude.{List};
    ghost use Rattle.fpl_log.specs.declared.section.Section.{Section};

    ghost Value = { List Section };

    ghost view = { λ l. l.items.items };
}

impl Sections {
    pub fn new(alloc: Global) -> Self
        ensures { result ≡ [] }
    {
        Sections {
            items: Vec::new(alloc),
        }
    }

    pub fn len(&self) -> usize
        ensures value { result ≡ length self.now }
        ensures range { length self.now < 2 ^ 63 }
    {
        self.items.len()
    }

    /// Section `n`, counted from 0.
    pub fn get(&self, n: usize) -> Option<&Section>
        ensures { option_copied result ≡ slice_get self.now n }
    {
        self.items.get(n)
    }

    /// Puts it last. On a refusal the list is unchanged and the item is gone.
    pub fn push(&mut self, item: Section) -> Result<(), AllocError>
        ensures ok { OnOk result (self.new ≡ self.old ++ item ∷ []) }
        ensures err { OnErr result (self.new ≡ self.old) }
    {
        self.items.push(item)?;
        Ok(())
    }

    /// Takes the last section back.
    pub fn pop(&mut self)
        ensures { (xs : List Section) (x : Section) → self.old ≡ xs ++ x ∷ [] → self.new ≡ xs }
    {
        self.items.pop();
    }
}
