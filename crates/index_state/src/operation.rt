ghost use Rattle.std.specs.Prelude.{◌≡◌};
ghost use Rattle.facet_model.specs.Histories.{add as added};

use facet_model::Document;
use std::marker::Model;
use std::snapshot::Snapshot;

/// An entry of the operations chronicle: a session added a document. The document is in it for the proofs only: an
/// operation allocates nothing and copies none.
#[derive(Drop)]
pub struct Operation {
    session: u32,
    doc: Snapshot<Document>,
}

impl Model for Operation {
    ghost use Rattle.facet_model.specs.Histories.{Operation as Entered, add};

    ghost Value = { Entered };

    ghost view = { λ o. record { session = o.session; change = add o.doc.value } };
}

impl Operation {
    /// Returns the operation for a document that the session with this number added.
    pub fn add(session: u32, doc: &Document) -> Operation
        ensures { result ≡ record { session = session; change = added doc.now } }
    {
        Operation {
            session,
            doc: Snapshot::of(doc),
        }
    }
}
