//! What reports are made of, together.

ghost use Rattle.std.specs.Prelude.{◌≡◌};
ghost use Rattle.py_reports.specs.Scenes.{name_at, name_in, path_in, place_of, scene_of};

use crate::place::{Place, Places};
use crate::source::{Source, Sources};
use py_code::{NameId, Names};
use py_exceptions::payload_at;
use py_objects::{FrameRef, Payload, PyObjectRef, Store};
use std::marker::Model;

/// Objects, the table of names, the places of codes, and source texts.
#[derive(Drop)]
pub struct Scene<'a> {
    objects: &'a [Payload],
    names: &'a Names,
    places: &'a Places,
    sources: &'a Sources,
}

impl<'a> Model for Scene<'a> {
    ghost use Rattle.py_reports.specs.Scenes.{Scene as SceneValue};

    ghost Value = { SceneValue };

    ghost view = { λ s. record { objects = s.objects.now; names = s.names.now; places = s.places.now; sources = s.sources.now } };
}

impl<'a> Scene<'a> {
    /// The objects of a store as they are now, with these names, places and texts.
    pub fn new(
        store: &'a Store,
        names: &'a Names,
        places: &'a Places,
        sources: &'a Sources,
    ) -> Scene<'a>
        ensures { result ≡ scene_of store.now names.now places.now sources.now }
    {
        Scene {
            objects: store.objects(),
            names,
            places,
            sources,
        }
    }

    /// The objects that are read.
    pub fn objects(&self) -> &'a [Payload]
        ensures { result.now ≡ self.now.objects }
    {
        self.objects
    }

    pub(crate) fn sources(&self) -> &'a [Source]
        ensures { result.now ≡ self.now.sources }
    {
        self.sources.as_slice()
    }

    /// The place of the code of a frame, where it is known.
    pub(crate) fn place_of(&self, frame: FrameRef) -> Option<Place>
        ensures { result ≡ place_of self.now frame }
    {
        let payload = payload_at(self.objects, PyObjectRef::from(frame))?;
        let Payload::Frame(code) = payload else {
            return None;
        };
        self.places.get(*code as usize).copied()
    }

    /// The path of a code.
    pub(crate) fn path(&self, place: Option<Place>) -> &'a str
        ensures { result.now ≡ path_in self.now.names place }
    {
        match place {
            Some(place) => text_of(self.names, place.source_path),
            None => "",
        }
    }

    /// The name of a code.
    pub(crate) fn name(&self, place: Option<Place>) -> &'a str
        ensures { result.now ≡ name_in self.now.names place }
    {
        match place {
            Some(place) => text_of(self.names, place.obj_name),
            None => "",
        }
    }
}

/// The text of a name; nothing, where the table doesn't have it.
fn text_of(names: &Names, name: NameId) -> &str
    ensures { result.now ≡ name_at names.now name }
{
    if name.index < names.len() {
        names.text(name)
    } else {
        ""
    }
}
