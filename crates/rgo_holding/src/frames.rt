//! Which regions the names of frames are bound to. The keys of all frames are in one list, those of the newest last. A frame that
//! has bound no name has no table, so a call that passes no region changes only the depth. Invariant (`IsOrdered`): tables
//! begin in ascending order in the list of keys, so the newest frame's keys are at its end and a return cuts them off.

ghost use Rattle.std.specs.Prelude.{◌≡◌, ◌<◌, [], Some, None, OnOk, OnErr, IfOk, length, slice_set};
ghost use Rattle.rgo_holding.specs.Naming as spec;
ghost use Rattle.rgo_holding.specs.Tables.{IsOrdered, key_in, named_frames, newest_keys};

use crate::keys::Key;
use std::alloc::{AllocError, Global};

/// The names of one frame: they begin at `start` in the list of all. `height` counts the frames from the oldest up to this
/// one. By it a table is known not to be the newest frame's.
#[derive(Clone, Copy)]
pub(crate) struct Table {
    pub(crate) height: usize,
    pub(crate) start: usize,
}

/// The names of all frames of a goroutine. A frame that has bound no name needs no table.
#[derive(Drop)]
pub(crate) struct Frames {
    /// The newest last.
    pub(crate) tables: Vec<Table>,
    /// The keys of all names, those of the newest frame last.
    pub(crate) keys: Vec<Option<Key>>,
    /// How many frames there are.
    pub(crate) depth: usize,
}

/// The key of a name.
#[inline(always)]
pub(crate) fn key_of(keys: &[Option<Key>], name: u32) -> Option<Key>
    ensures { result ≡ key_in keys.now name }
{
    match keys.get(name as usize) {
        Some(key) => *key,
        None => None,
    }
}

impl Frames {
    /// One frame that has bound no name.
    pub(crate) fn new(alloc: Global) -> Frames
        ensures depth { result.depth ≡ 1 }
        ensures tables { result.tables.items ≡ [] }
    {
        Frames {
            tables: Vec::new(alloc),
            keys: Vec::new(alloc),
            depth: 1,
        }
    }

    /// The only frame gets these keys; it had none. It is called for a goroutine before its start. The table is as long as it needs to be,
    /// since most goroutines never need a second one.
    ///
    /// # Errors
    ///
    /// On allocation failure.
    pub(crate) fn name_first(&mut self, keys: Vec<Option<Key>>) -> Result<(), AllocError>
        ensures { OnOk result (spec.NamesFirst self.old self.new keys.items) }
    {
        self.tables.reserve_exact(1)?;
        self.tables.push(Table {
            height: 1,
            start: 0,
        })?;
        self.keys = keys;
        Ok(())
    }

    /// Where the keys of the newest frame begin, if it has a table.
    #[inline(always)]
    fn start(&self) -> Option<usize>
        ensures { result ≡ spec.newest_start self.now }
    {
        match self.tables.last() {
            Some(table) => if table.height == self.depth {
                Some(table.start)
            } else {
                None
            },
            None => None,
        }
    }

    /// The keys of the names of the newest frame.
    #[inline(always)]
    pub(crate) fn newest(&self) -> &[Option<Key>]
        ensures { result.now ≡ newest_keys self.now }
    {
        match self.start() {
            Some(start) => self.keys.get(start..).unwrap_or(&[]),
            None => &[],
        }
    }

    /// Memory for a name of the newest frame. Taken before the access that creates its region: afterwards the region exists, and the name
    /// has to be bound.
    ///
    /// # Errors
    ///
    /// On allocation failure. No name has changed, whatever the result.
    pub(crate) fn reserve_name(&mut self, name: u32) -> Result<(), AllocError>
        ensures same { IsOrdered self.old → spec.SameNames self.old self.new }
        ensures room { OnOk result (name < length (newest_keys self.new)) }
    {
        let start = self.own_start()?;
        self.lengthen(start, name)
    }

    /// Where the keys of the newest frame begin; it gets a table if it has none.
    ///
    /// # Errors
    ///
    /// On allocation failure. No name has changed, whatever the result.
    fn own_start(&mut self) -> Result<usize, AllocError>
        ensures same { IsOrdered self.old → spec.SameNames self.old self.new }
        ensures start { IfOk result (λ start. spec.newest_start self.new ≡ Some start) }
    {
        match self.start() {
            Some(start) => Ok(start),
            None => self.add_table(),
        }
    }

    /// Makes a place for a name of the newest frame, whose keys begin here.
    ///
    /// # Errors
    ///
    /// On allocation failure. No name has changed, whatever the result.
    fn lengthen(&mut self, start: usize, name: u32) -> Result<(), AllocError>
        requires start { spec.newest_start self.old ≡ Some start }
        ensures same { IsOrdered self.old → spec.SameNames self.old self.new }
        ensures room { OnOk result (name < length (newest_keys self.new)) }
    {
        let Some(end) = start.checked_add(name as usize + 1) else {
            return Err(AllocError);
        };
        if self.keys.len() < end {
            self.keys.resize(end, None)?;
        }
        Ok(())
    }

    /// A table without names for the newest frame, which has none; returns its start.
    ///
    /// # Errors
    ///
    /// On allocation failure. Then nothing has changed.
    fn add_table(&mut self) -> Result<usize, AllocError>
        requires none { spec.newest_start self.old ≡ None }
        ensures same { IsOrdered self.old → spec.SameNames self.old self.new }
        ensures start { IfOk result (λ start. spec.newest_start self.new ≡ Some start) }
    {
        let start = self.keys.len();
        self.tables.push(Table {
            height: self.depth,
            start,
        })?;
        Ok(start)
    }

    /// Binds a name of the newest frame to another key, or to none. A name without a place has no key already, so nothing is to be
    /// done for it; a caller that binds one has made its place by `reserve_name`.
    #[inline(always)]
    pub(crate) fn set(&mut self, name: u32, key: Option<Key>)
        ensures set { IsOrdered self.old → spec.Changed self.old self.new (λ keys. slice_set keys name key) }
        ensures room { spec.KeepsRoom self.old self.new }
    {
        let Some(start) = self.start() else {
            return;
        };
        let Some(place) = start.checked_add(name as usize) else {
            return;
        };
        if let Some(kept) = self.keys.get_mut(place) {
            *kept = key;
        }
    }

    /// Memory for a new frame with `names` names. Taken before the call is made, so that `enter` cannot fail.
    ///
    /// # Errors
    ///
    /// On allocation failure. Nothing has changed but memory, whatever the result.
    pub(crate) fn reserve_frame(&mut self, names: usize) -> Result<(), AllocError>
        ensures same { spec.SameTables self.old self.new }
        ensures room { OnOk result (spec.HasFrameRoom self.new names) }
    {
        if self.depth == usize::MAX {
            return Err(AllocError);
        }
        self.tables.reserve(1)?;
        self.keys.reserve(names)?;
        Ok(())
    }

    /// A new frame, with these keys.
    pub(crate) fn enter(&mut self, keys: &[Option<Key>])
        requires room { spec.HasFrameRoom self.old (length keys.now) }
        ensures { spec.NamedFrameEnters self.old self.new keys.now }
    {
        self.depth += 1;
        if keys.is_empty() {
            return;
        }
        let start = self.keys.len();
        // This cannot fail: memory for both was taken by `reserve_frame`.
        if self.keys.extend_from_slice(keys).is_ok() {
            self.tables.push_reserved(Table {
                height: self.depth,
                start,
            });
        }
    }

    /// Whether the newest table belongs to a frame above this height.
    #[inline(always)]
    fn is_above(&self, height: usize) -> bool
        ensures { result ≡ spec.is_above height (named_frames self.now) }
    {
        match self.tables.last() {
            Some(table) => table.height > height,
            None => false,
        }
    }

    /// Drops the newest table.
    fn drop_table(&mut self)
        ensures { spec.Drops self.old self.new }
    {
        if let Some(table) = self.tables.pop() {
            self.keys.truncate(table.start);
        }
    }

    /// Drops the newest frame.
    pub(crate) fn come_back(&mut self)
        ensures { spec.NamedFrameReturns self.old self.new }
    {
        if let Some(start) = self.start() {
            self.tables.pop();
            self.keys.truncate(start);
        }
        self.depth = self.depth.saturating_sub(1);
    }

    /// The loop has left the frames above the oldest `kept`, and has entered others which have bound no name. There are now `depth`
    /// frames. The loop itself touches no names, so this makes up for all its calls and returns at once.
    pub(crate) fn settle(&mut self, kept: usize, depth: usize)
        ensures { spec.Cuts self.old self.new kept depth }
    {
        while self.is_above(kept) {
            self.drop_table();
        }
        self.depth = depth;
    }
}
