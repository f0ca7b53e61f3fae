//! The words of a run.

/// What happens to a renewal.
#[derive(Clone, Copy)]
pub enum Event {
    /// It loads what is stored now.
    Loads,
    /// It loads, and is shown what was stored at this place of all that ever was.
    LoadsOld(usize),
    /// It is told nothing.
    HearsNothing,
    /// The store takes what it asks, and says so.
    Asks,
    /// The store takes what it asks, and its reply is lost.
    AsksUnheard,
    /// The server gives it a token.
    IsGiven,
    /// Its caller wants nothing to be sent any more.
    Stops,
}

/// What happens next.
#[derive(Clone, Copy)]
pub enum Word {
    /// To the renewal of this name.
    Of(u64, Event),
    /// The store takes the request at this place of all that were asked, late or once more.
    IsTaken(usize),
    /// A caller logs in anew over a mark.
    SignsIn,
    /// A caller allows the token under a mark to be used again.
    Allows,
    /// Somebody logs in where no mark stands.
    LogsIn,
    /// Somebody logs out.
    LogsOut,
}

impl Word {
    /// The word that a text is, if it is one.
    pub fn read(text: &str) -> Option<Word> {
        let mut letters = text.chars();
        let first = letters.next()?;
        let rest = letters.as_str();
        match first {
            'i' | 'w' | 'g' | 'q' => of_nobody(first, rest),
            't' => Some(Word::IsTaken(rest.parse::<usize>().ok()?)),
            'o' => {
                let (name, place) = rest.split_once('.')?;
                let event = Event::LoadsOld(place.parse::<usize>().ok()?);
                Some(Word::Of(name.parse::<u64>().ok()?, event))
            }
            _ => Some(Word::Of(rest.parse::<u64>().ok()?, event_of(first)?)),
        }
    }
}

fn of_nobody(first: char, rest: &str) -> Option<Word> {
    match (first, rest) {
        ('i', "") => Some(Word::SignsIn),
        ('w', "") => Some(Word::Allows),
        ('g', "") => Some(Word::LogsIn),
        ('q', "") => Some(Word::LogsOut),
        _ => None,
    }
}

fn event_of(first: char) -> Option<Event> {
    match first {
        'l' => Some(Event::Loads),
        'n' => Some(Event::HearsNothing),
        'd' => Some(Event::Asks),
        'x' => Some(Event::AsksUnheard),
        'a' => Some(Event::IsGiven),
        's' => Some(Event::Stops),
        _ => None,
    }
}
