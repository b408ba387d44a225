use crate::carried::Carried;
use etcd_types::NoMemory;
use proxy_core::Figures;
use proxy_parts::Place;
use std::sync::{Arc, Wait};

/// Who looks at a server's machine now and then, and makes no step of it.
#[derive(Drop)]
pub struct Lookout {
    at: Carried,
}

impl Lookout {
    /// One at the hub of this place.
    pub(crate) fn beside(place: &mut Place) -> Result<Lookout, NoMemory> {
        let hub = Arc::try_clone(&place.hub)?;
        let hosts = Arc::try_clone(&place.hosts)?;
        let pass = place.hub.split(&mut place.pass);
        let at = Place {
            hub,
            hosts,
            message_limit: place.message_limit,
            form: place.form,
            pass,
        };
        Ok(Lookout {
            at: Carried::pack(at),
        })
    }

    /// The machine in numbers, as all its steps so far have left it. It has the turn meanwhile, and may wait for it.
    pub fn look<R: Wait>(self, rt: &R) -> (Figures, Lookout) {
        let Place {
            hub,
            hosts,
            message_limit,
            form,
            pass,
        } = self.at.unpack();
        let mut pass = pass;
        let figures = hub.look(rt, &mut pass, |core| core.figures());
        let at = Place {
            hub,
            hosts,
            message_limit,
            form,
            pass,
        };
        let lookout = Lookout {
            at: Carried::pack(at),
        };
        (figures, lookout)
    }
}
