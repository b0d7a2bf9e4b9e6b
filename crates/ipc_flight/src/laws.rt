//! What follows of files whose messages are handed over. Each function's contract is a law, proved in `proofs/`.
ghost use Rattle.ipc_flight.specs.Flights.{FlightMeansTheFile};
ghost use Rattle.ipc_flight.specs.Laws.{ConsumedFlightIsTheFile};

/// The messages of a file with a record batch, that means a table, mean the table's record batches.
pub fn flight_means_the_file()
    ensures { FlightMeansTheFile }
{}

/// What a producer gives of a file with a record batch, that means a table, is the table to a consumer.
pub fn consumed_flight_is_the_file()
    ensures { ConsumedFlightIsTheFile }
{}
