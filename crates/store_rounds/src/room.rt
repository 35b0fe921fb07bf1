//! The desks of a run, and who stands at them.
ghost use Rattle.std.specs.Prelude.{◌≤◌};
ghost use Rattle.store_rounds.specs.Stations.{IsFurnished};

use crate::errand::{Errand, Server, Serving};
use shared_store::{Built, Session, Store};
use standing_crew::{Client, Desk, Helper, Manned};
use std::alloc::{AllocError, Global};

/// A desk of a run, at which whoever helps serves.
pub(crate) type ServedDesk<'s> = Desk<Errand<'s>, Serving>;

/// Who hands errands over a desk.
#[derive(Drop)]
pub(crate) struct Station<'s> {
    pub client: Client<Errand<'s>>,
    /// Stands in the row while one of the row is away: a session of a store without tables.
    pub stand_in: Option<Session>,
}

/// Desks, and for each its station and its helper.
#[derive(Drop)]
pub(crate) struct Room<'s> {
    pub desks: Vec<ServedDesk<'s>>,
    pub stations: Vec<Station<'s>>,
    pub helpers: Vec<Helper<Errand<'s>>>,
}

/// Who hands the sessions of a store over the desks of a run.
#[derive(Drop)]
pub(crate) struct Dispatcher<'d, 's, 'g, G> {
    pub server: &'d Server<'g, G>,
    pub store: &'s Store,
    pub desks: &'d [ServedDesk<'s>],
    pub stations: Vec<Station<'s>>,
}

impl<'s> Room<'s> {
    /// A room with so many desks, or with as many as there is memory for.
    pub(crate) fn furnish(alloc: Global, desks: u32) -> Room<'s>
        requires { desks ≤ 128 }
        ensures { IsFurnished result.desks.items result.stations.items result.helpers.items }
    {
        let mut room = Room::bare(alloc);
        if desks == 0 {
            return room;
        }
        let Ok(
            Built {
                store: _,
                sessions,
                workers: _,
            },
        ) = Store::build(alloc, Vec::new(alloc), desks, 0)
        else {
            return room;
        };
        for stand_in in sessions {
            if room.add(alloc, stand_in).is_err() {
                break;
            }
        }
        room
    }

    /// A room without desks.
    #[tactic(auto, using(crate::proofs::Apart::none_furnished))]
    fn bare(alloc: Global) -> Room<'s>
        ensures { IsFurnished result.desks.items result.stations.items result.helpers.items }
    {
        Room {
            desks: Vec::new(alloc),
            stations: Vec::new(alloc),
            helpers: Vec::new(alloc),
        }
    }

    /// Adds a desk. Where there is no memory for it, all stays as it is.
    #[tactic(auto, using(crate::proofs::Apart::one_more))]
    fn add(&mut self, alloc: Global, stand_in: Session) -> Result<(), AllocError>
        requires { IsFurnished self.old.desks.items self.old.stations.items self.old.helpers.items }
        ensures { IsFurnished self.new.desks.items self.new.stations.items self.new.helpers.items }
    {
        self.desks.reserve(1)?;
        self.stations.reserve(1)?;
        self.helpers.reserve(1)?;
        let Manned {
            desk,
            client,
            helper,
        } = Desk::man(alloc)?;
        self.desks.push_reserved(desk);
        self.stations.push_reserved(Station {
            client,
            stand_in: Some(stand_in),
        });
        self.helpers.push_reserved(helper);
        Ok(())
    }
}
