//! What a stream's messages tell of the dictionaries that its writer holds. Each function's contract is a law, proved in `proofs/`.
ghost use Rattle.laws_writers.specs.StreamLaws.{WhatIsSentIsFixed, WhatIsSentIsKnown, WhatIsSentMayStand};

/// What is sent of a batch's dictionaries tells what is held behind it, and each of its messages stands where the dictionaries in it are known (Arrow Columnar Format, "Dictionary Messages").
pub fn what_is_sent_is_known()
    ensures { WhatIsSentIsKnown }
{}

/// Behind it the values of each of the batch's dictionaries are held, or more of them where deltas are sent.
pub fn what_is_sent_is_fixed()
    ensures { WhatIsSentIsFixed }
{}

/// Each message stands under an id that the stream's fields have, with a part of the kind that they have there, and the values of the batch's dictionaries are known before the batch, under the ids that its fields state (Schema.fbs, DictionaryEncoding).
pub fn what_is_sent_may_stand()
    ensures { WhatIsSentMayStand }
{}
