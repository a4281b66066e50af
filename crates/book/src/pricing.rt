// The pricing call of a book, for any four determinants.
ghost use Rattle.std.specs.Prelude.{◌≡◌};
ghost use Rattle.classes.specs.Outcomes.{accepted};
ghost use Rattle.charging.specs.declared.pricing.Price.{Price};
ghost use Rattle.contents.specs.Calls.{answered};
ghost use Rattle.charging.specs.Prices.{amounts_of, classes_of, price_refusal, priced, OneLine};
ghost use Rattle.classes.specs.Determinants.{Meanings, meanings_of};
ghost use Rattle.contents.specs.Refusals.{outcome};

use crate::book::Book;
use charging::{Price, amounts_of, price_of, priced_classes};
use classes::{Determinant, Determinants, Usage};
use contents::Refusal;

impl Book {
    // What a usage costs by the one line that claims its classes.
    pub fn price<V: Determinant, T: Determinant, L: Determinant, U: Determinant>(
        &self,
        determinants: &Determinants<V, T, L, U>,
        usage: &Usage,
    ) -> Result<Price, Refusal>
        ensures answer { let d : Meanings = meanings_of V.meaning T.meaning L.meaning U.meaning determinants.now in outcome result ≡ answered (price_refusal self.now.contents d usage.now) (priced self.now.contents d usage.now) }
        ensures one { let d : Meanings = meanings_of V.meaning T.meaning L.meaning U.meaning determinants.now in ((p : Price) → outcome result ≡ accepted p → OneLine self.now.contents (classes_of d usage.now) (amounts_of usage.now) p) }
    {
        let classes = priced_classes(&self.contents, determinants, usage)?;
        match price_of(&self.contents, &classes, &amounts_of(usage)) {
            Some(price) => Ok(price),
            None => unreachable(),
        }
    }
}
