//! Events, compared.

ghost use Rattle.std.specs.Prelude.{◌≡◌, ◌↔◌, IsTrue};
ghost use Rattle.std.specs.Option.{option_copied};
ghost use Rattle.sedck_flow.specs.Run as model;
ghost use Rattle.sedck_flow.specs.Run.{file_event};
ghost use Rattle.sedck_model.specs.States.{event_of};

use crate::states::Event;

pub(crate) fn is_silent(event: &Event) -> bool
    ensures { IsTrue result ↔ event_of event.now ≡ model.Silent }
{
    match event {
        Event::Silent => true,
        Event::Reads(_) => false,
        Event::Writes(_) => false,
    }
}

pub(crate) fn is_read(event: &Event, file: &[u8]) -> bool
    ensures { IsTrue result ↔ event_of event.now ≡ model.Reads file.now }
{
    match event {
        Event::Silent => false,
        Event::Reads(name) => *name == file,
        Event::Writes(_) => false,
    }
}

pub(crate) fn is_written(event: &Event, file: &[u8]) -> bool
    ensures { IsTrue result ↔ event_of event.now ≡ model.Writes file.now }
{
    match event {
        Event::Silent => false,
        Event::Reads(_) => false,
        Event::Writes(name) => *name == file,
    }
}

/// Whether the event is what a substitution with this file does to it.
pub(crate) fn is_file_event(event: &Event, file: &Option<&[u8]>) -> bool
    ensures { IsTrue result ↔ event_of event.now ≡ file_event (option_copied file.now) }
{
    match file {
        Some(name) => is_written(event, name),
        None => is_silent(event),
    }
}
