//! The requests of a chronicle, by their ids.

ghost use Rattle.std.specs.Prelude.{◌≡◌, OnOk, IfOk};

use cs_base::ReqId;
use std::alloc::{AllocError, Global};
use std::collections::BTreeMap;

/// Where an entry stands in a chronicle that comes in pieces: the number of its piece, and its own number among the entries
/// of the step itself, both from 0 on.
#[derive(Clone, Copy, Debug, PartialEq, Eq)]
pub(crate) struct Place {
    pub(crate) piece: usize,
    pub(crate) index: usize,
}

/// A request that has an id: its number, and the place of the entry with which its read began.
#[derive(Clone, Copy, Debug, PartialEq, Eq)]
struct Request {
    id: ReqId,
    number: u64,
    start: Option<Place>,
}

/// The requests so far: how many came, the newest of those with an id, the recent ones before it in the order in which they
/// came, and of those before them the number of the last request of each id, and the place of the entry with which the last
/// read of each id began.
///
/// Most answers are of the newest request. So the maps, which are dear to fill, are filled only where an older one is
/// looked for.
#[derive(Drop)]
pub(crate) struct Requests {
    asked: u64,
    newest: Option<Request>,
    recent: Vec<Request>,
    numbers: BTreeMap<ReqId, u64>,
    places: BTreeMap<ReqId, Place>,
}

impl Requests {
    ghost use Rattle.std.specs.Prelude.{◌+◌, None, Some, slice_get};
    ghost use Rattle.chronicle_print.specs.Printing.{if_named, older_number, older_place, number_in, place_in, IsFresh, Files, FilesAny, Settles, Keeps, Moves, Counts, Puts, Begins};

    pub(crate) fn new(alloc: Global) -> Requests
        ensures { IsFresh result }
    {
        Requests {
            asked: 0,
            newest: None,
            recent: Vec::new(alloc),
            numbers: BTreeMap::new(alloc),
            places: BTreeMap::new(alloc),
        }
    }

    /// How many came.
    pub(crate) fn asked(&self) -> u64
        ensures { result ≡ self.now.asked }
    {
        self.asked
    }

    /// The newest request, if it has this id.
    fn newest_of(&self, id: &ReqId) -> Option<Request>
        ensures { result ≡ if_named self.now.newest id.now }
    {
        match self.newest {
            Some(newest) if newest.id == *id => Some(newest),
            _ => None,
        }
    }

    /// Puts a request into the maps.
    fn file(&mut self, request: Request) -> Result<(), AllocError>
        ensures { OnOk result (Files request self.old self.new) }
    {
        self.numbers.insert(request.id, request.number)?;
        if let Some(start) = request.start {
            self.places.insert(request.id, start)?;
        }
        Ok(())
    }

    /// Puts the recent request of this number into the maps.
    fn file_recent(&mut self, index: usize) -> Result<(), AllocError>
        ensures { OnOk result (FilesAny (slice_get self.old.recent.items index) self.old self.new) }
    {
        match self.recent.get(index).copied() {
            Some(request) => self.file(request),
            None => Ok(()),
        }
    }

    /// Puts the recent requests into the maps, one after another.
    fn settle(&mut self) -> Result<(), AllocError>
        ensures { OnOk result (Settles self.old self.new) }
    {
        for index in 0..self.recent.len() {
            self.file_recent(index)?;
        }
        self.recent.clear();
        Ok(())
    }

    /// The number of the last request of this id before the newest one; 0 where none came.
    fn older_number(&mut self, id: &ReqId) -> Result<u64, AllocError>
        ensures number { IfOk result (λ number. number ≡ older_number self.old id.now) }
        ensures settles { OnOk result (Settles self.old self.new) }
    {
        self.settle()?;
        Ok(self.numbers.get(id).copied().unwrap_or(0))
    }

    /// The place of the entry with which the last read of this id before the newest request began.
    fn older_place(&mut self, id: &ReqId) -> Result<Option<Place>, AllocError>
        ensures place { IfOk result (λ place. place ≡ older_place self.old id.now) }
        ensures settles { OnOk result (Settles self.old self.new) }
    {
        self.settle()?;
        Ok(self.places.get(id).copied())
    }

    /// The number of the last request of this id; 0 where none came.
    pub(crate) fn number_of(&mut self, id: &ReqId) -> Result<u64, AllocError>
        ensures number { IfOk result (λ number. number ≡ number_in self.old id.now) }
        ensures keeps { OnOk result (Keeps self.old self.new) }
    {
        if let Some(newest) = self.newest_of(id) {
            return Ok(newest.number);
        }
        let number = self.older_number(id)?;
        Ok(number)
    }

    /// The place of the entry with which the last read of this id began.
    pub(crate) fn place_of(&mut self, id: &ReqId) -> Result<Option<Place>, AllocError>
        ensures place { IfOk result (λ place. place ≡ place_in self.old id.now) }
        ensures keeps { OnOk result (Keeps self.old self.new) }
    {
        let newest = self.newest_of(id);
        if let Some(
            Request {
                start: Some(start),
                ..
            },
        ) = newest
        {
            return Ok(Some(start));
        }
        let place = self.older_place(id)?;
        Ok(place)
    }

    /// Puts the newest request to the recent ones.
    fn move_newest(&mut self) -> Result<(), AllocError>
        ensures { OnOk result (Moves self.old self.new) }
    {
        if let Some(newest) = self.newest {
            self.recent.push(newest)?;
            self.newest = None;
        }
        Ok(())
    }

    /// Enters a request that has an id, as the newest.
    fn enter(&mut self, id: ReqId, number: u64) -> Result<(), AllocError>
        requires { number ≡ self.old.asked + 1 }
        ensures { OnOk result (Counts (Some id) self.old self.new) }
    {
        self.move_newest()?;
        self.newest = Some(Request {
            id,
            number,
            start: None,
        });
        self.asked = number;
        Ok(())
    }

    /// Counts a request. For more of them than a number of 64 bits tells there is no memory.
    pub(crate) fn ask(&mut self, request: Option<ReqId>) -> Result<(), AllocError>
        ensures { OnOk result (Counts request self.old self.new) }
    {
        let Some(number) = self.asked.checked_add(1) else {
            return Err(AllocError);
        };
        match request {
            Some(id) => self.enter(id, number),
            None => {
                self.asked = number;
                Ok(())
            }
        }
    }

    fn put_place(&mut self, id: ReqId, place: Place) -> Result<(), AllocError>
        ensures { OnOk result (Puts id place self.old self.new) }
    {
        self.places.insert(id, place)?;
        Ok(())
    }

    /// A read began with the entry at this place, and its request is not the newest.
    fn begin_older(&mut self, id: ReqId, place: Place) -> Result<(), AllocError>
        requires { if_named self.old.newest id ≡ None }
        ensures { OnOk result (Begins id place self.old self.new) }
    {
        self.settle()?;
        self.put_place(id, place)?;
        Ok(())
    }

    /// A read began with the entry at this place.
    pub(crate) fn begin(&mut self, id: ReqId, place: Place) -> Result<(), AllocError>
        ensures { OnOk result (Begins id place self.old self.new) }
    {
        let Some(newest) = self.newest_of(&id) else {
            return self.begin_older(id, place);
        };
        self.newest = Some(Request {
            start: Some(place),
            ..newest
        });
        Ok(())
    }
}
