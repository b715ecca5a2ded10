//! Laws of what is sent of errors and confirmations.
ghost use Rattle.error_sends.specs.Alone.{AreSentAlone};

/// Where an input changes no fact, its errors and confirmations are all that is sent.
pub fn errors_are_sent_alone()
    ensures { AreSentAlone }
{}
