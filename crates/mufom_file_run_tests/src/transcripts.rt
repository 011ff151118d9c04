//! Transcripts that are not met, so that the others are known to be compared.

use mufom_runs::replay;

/// Another text, another status, no text, an unknown topic, and no line of arguments.
const WRONG: [&str; 7] = [
    "\n$ version\nmufom 0.0.0\n",
    "\n$ version\n[1] mufom 1.0.0\n",
    "\n$ version\n",
    "\n$ dump nowhere\nread fault: file 0\n",
    "\n$ version\nmufom 1.0.0\n$ version\nmufom\n",
    "\n$ help\n(help nothing)\n",
    "$ version\nmufom 1.0.0\n",
];

#[test]
fn wrong_transcripts_are_not_met(rt: HostRuntime) {
    for text in WRONG {
        assert!(rt; replay(rt.alloc(), &[], text).is_err(), "{text}");
    }
}
