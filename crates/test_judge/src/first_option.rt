//! `judge --first` asks for no byte after the line of the event that makes all verdicts final.
use tmw_defs::Asked;
use tmw_judge::run_judge_with;
use tmw_monitor::Bounds;
use tmw_options::JudgeOptions;
use tmw_streams::{MemorySink, MemorySource};

const BOUNDS: Bounds = Bounds {
    window: 2,
    states: 64,
};

/// Texts up to the event at which all verdicts are final, by what they are judged, the answer and its exit status.
const FINAL: [(&str, Asked, &str, u8); 5] = [
    (
        "opacity-trace 1 1\n0 W 0 1\n0 K\n1 R 0\n1 V 1\n",
        Asked::Opacity,
        "{\"at\":4,\"events\":4,\"verdict\":\"violated\"}\n",
        1,
    ),
    (
        "opacity-trace 1 1\n0 T\n1 T\n2 T\n",
        Asked::Opacity,
        "{\"at\":3,\"events\":3,\"verdict\":\"undecided\",\"why\":\"transactions\"}\n",
        2,
    ),
    (
        "opacity-trace 1 1\n0 V 1\n",
        Asked::Strict,
        "{\"at\":1,\"criterion\":\"strict\",\"events\":1,\"verdict\":\"malformed\"}\n",
        3,
    ),
    // Opacity is violated first, and the judging goes on until the other verdict is final too.
    (
        "opacity-trace 1 1\n0 W 0 1\n0 K\n1 R 0\n1 V 1\n1 V 1\n",
        Asked::Both,
        "{\"at\":4,\"events\":5,\"verdict\":\"violated\"}\n{\"at\":5,\"criterion\":\"strict\",\"events\":5,\"verdict\":\"malformed\"}\n",
        3,
    ),
    (
        "opacity-trace 1 1\n0 T\n1 V 1\n",
        Asked::Both,
        "{\"at\":2,\"events\":2,\"verdict\":\"malformed\"}\n{\"at\":2,\"criterion\":\"strict\",\"events\":2,\"verdict\":\"malformed\"}\n",
        3,
    ),
];

#[test]
fn nothing_is_asked_for_behind_the_final_verdict(rt: HostRuntime) {
    for (text, asked, lines, status) in FINAL {
        // A read behind the event's line would fail.
        let fails_at = Some(text.len() as u64 + 1);
        let mut source = MemorySource::limited(text.as_bytes(), 1, fails_at);
        let mut sink = MemorySink::new(rt.alloc());
        let mut errors = MemorySink::new(rt.alloc());
        let options = JudgeOptions {
            first: true,
            ..JudgeOptions::plain(BOUNDS, asked)
        };
        let answered = run_judge_with(rt.alloc(), &mut source, &mut sink, &mut errors, options);
        assert_eq!(rt; sink.bytes(), lines.as_bytes());
        assert_eq!(rt; answered, status, "of {lines}");
    }
}
