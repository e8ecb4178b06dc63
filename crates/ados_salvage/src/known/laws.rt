//! Laws about the definitions. Each is the contract of a function that does nothing.
ghost use Rattle.ados_salvage.specs.ByCensus.{HeadersLookByCensus, SoundHeadersByCensus};

/// The headers of an image are what its census says: the sound ones, and the blocks that look like one.
pub fn headers_by_census()
    ensures sound { SoundHeadersByCensus }
    ensures look { HeadersLookByCensus }
{}
