//! Texts of files, and of what is printed.

/// The model of the sample, which the conformance suite has too.
pub(super) const SAMPLE: &[u8] =
    b"2\n1 100\n0 10\n4\n0 0 30 400 16 80 0 1 4 5\n0 0 10 240 8 160 1 0 3 4\n1 1 15 100 12 80 4 3 0 2\n1 2 10 100 8 80 5 4 2 0\n2\n2 0\n1 1 0\n3\n0 12 10 1000\n0 10 20 100\n1 6 200 1\n1\n0 1 20\n10\n1 10 100\n";

/// Its start.
pub(super) const START: &[u8] = b"0 3 0\n";

/// Two machines, each with the process that the other one has more room for.
pub(super) const PAIR: &[u8] =
    b"1\n0 10\n2\n0 0 10 4 0 1\n1 1 10 8 1 0\n2\n1 0\n1 0\n2\n0 8 1\n1 4 1\n0\n1 1 1\n";

/// Its start.
pub(super) const PAIR_START: &[u8] = b"0 1\n";

/// The head of a report of the sample whose best state is the start.
pub(super) const START_HEAD: &str =
    "cost 4200\nload 1700\nbalance 2500\nprocess 0\nservice 0\nmachine 0\nbound 1300\nbest_at 0\nassignment 0 3 0\ndraws 1\n";

/// The head of a report of the pair whose best state is the start.
pub(super) const PAIR_HEAD: &str =
    "cost 40\nload 40\nbalance 0\nprocess 0\nservice 0\nmachine 0\nbound 0\nbest_at 0\nassignment 0 1\ndraws 1\n";

/// The head of a report of the sample whose best state is the one with process 1 on machine 2, up to its place.
pub(super) const BETTER_HEAD: &str =
    "cost 3510\nload 1500\nbalance 1700\nprocess 100\nservice 10\nmachine 200\nbound 1300\nbest_at ";
