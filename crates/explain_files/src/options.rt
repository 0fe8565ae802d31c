//! Options of OMNeT++'s that have no effect here, with what serves instead.

/// Beginnings of options, each with what serves instead of them.
const OPTIONS: [(&str, &str); 25] = [
    ("bin-recording", "each value of a vector is written"),
    (
        "cmdenv-",
        "the word --progress of the program reports every two seconds how far a run is",
    ),
    (
        "cpu-time-limit",
        "the word -l of the program ends a run after so many events",
    ),
    ("debug", "a fault is reported with the module and the event"),
    (
        "description",
        "write it into a comment, which begins with #",
    ),
    ("display-name", "there are no graphics"),
    ("eventlog-", "there is no event log"),
    ("image-path", "there are no graphics"),
    (
        "load-libs",
        "the modules are those that come with the program",
    ),
    (
        "ned-p",
        "name the NED files after the options, or a folder of them by the word -n",
    ),
    (
        "num-rngs",
        "there are no random numbers, and every run is the same",
    ),
    (
        "output-",
        "the word -o of the program names the folder of both result files",
    ),
    (
        "param-record-as-scalar",
        "let a module record what is wanted",
    ),
    ("partition-id", "a run is one process"),
    ("parallel-simulation", "a run is one process"),
    ("qtenv-", "there are no graphics"),
    (
        "real-time-limit",
        "the word -l of the program ends a run after so many events",
    ),
    ("record-eventlog", "there is no event log"),
    (
        "result-dir",
        "the word -o of the program names the folder of the result files",
    ),
    (
        "rng-",
        "there are no random numbers, and every run is the same",
    ),
    (
        "seed-",
        "there are no random numbers, and every run is the same",
    ),
    ("simtime-scale", "times are whole picoseconds"),
    ("user-interface", "there is one, which reads commands"),
    (
        "vector-recording-intervals",
        "a vector is recorded from the start of the run on, or not at all",
    ),
    (
        "warmup-period",
        "values are recorded from the start of the run on: leave the line out",
    ),
];

/// What serves instead of an option of OMNeT++'s, where this is one.
pub fn instead_of_option(option: &str) -> Option<&'static str> {
    for (front, instead) in OPTIONS.as_slice() {
        if option.starts_with(*front) {
            return Some(*instead);
        }
    }
    None
}
