// Tests of the pattern policies: the worked patterns, every (m,k) against another way to find the marks, and the edges of what may be asked.
#![tactic(auto)]

#[cfg(test)]
mod tests {
    use pattern::even::Even;
    use pattern::policy::Pattern;
    use pattern::red::Red;
    use pattern::shifted::Shifted;
    use std::iter::successors;

    // Whether the policy marks the jobs of task 29 from this one on as the text shows them, 1 for a marked job.
    fn shows<P: Pattern>(policy: &P, m: u8, k: u8, first: u32, text: &[u8]) -> bool {
        text.iter()
            .zip(first..=u32::MAX)
            .all(|(c, job)| policy.mark(29, m, k, job) == (*c == b'1'))
    }

    #[test]
    fn worked_patterns(rt: HostRuntime) {
        assert!(rt; shows(&Even, 3, 7, 0, b"1010100"));
        assert!(rt; shows(&Even, 2, 3, 0, b"110"));
        assert!(rt; shows(&Red, 3, 7, 0, b"1110000"));
        assert!(rt; shows(&Shifted::new([3; 30]), 3, 7, 0, b"0100101"));
    }

    // The last seven jobs below 2^32. Shifted asks Even about jobs beyond.
    #[test]
    fn last_jobs(rt: HostRuntime) {
        let first = u32::MAX - 6;
        assert!(rt; shows(&Even, 3, 7, first, b"1001010"));
        assert!(rt; shows(&Red, 3, 7, first, b"0001110"));
        assert!(rt; shows(&Shifted::new([3; 30]), 3, 7, first, b"1010100"));
        assert!(rt; shows(&Shifted::new([255; 30]), 3, 7, first, b"1010100"));
    }

    // Even's marks without a product: a mark is due while less than m is left of the k that the last one brought.
    // The first 64 jobs are two periods and more. The policy's job 0 is Even's job `shift`.
    fn marks_when_due<P: Pattern>(policy: &P, m: u8, k: u8, shift: u8) -> bool {
        let left = successors(Some(0u8), move |left| {
            let brought = if *left < m {
                left.wrapping_add(k)
            } else {
                *left
            };
            Some(brought.wrapping_sub(m))
        });
        (0..64u32)
            .zip(left.skip(usize::from(shift)))
            .all(|(job, left)| policy.mark(7, m, k, job) == (left < m))
            && policy.length(7, m, k) == k
    }

    // Red's marks without a remainder: a place that is counted from 0 to k − 1, again and again.
    fn marks_the_first(m: u8, k: u8) -> bool {
        (0..64u32)
            .zip((0..k).cycle())
            .all(|(job, place)| Red.mark(7, m, k, job) == (place < m))
            && Red.length(7, m, k) == k
    }

    #[test]
    fn every_pattern(rt: HostRuntime) {
        let mut shifts = [0u8; 30];
        shifts[7] = 5;
        let near = Shifted::new(shifts);
        shifts[7] = 255;
        let far = Shifted::new(shifts);
        for k in 1..=32u8 {
            for m in 1..=k {
                assert!(rt;
                    marks_when_due(&Even, m, k, 0) && marks_the_first(m, k),
                    "({m},{k})"
                );
                assert!(rt;
                    marks_when_due(&near, m, k, 5) && marks_when_due(&far, m, k, 255),
                    "({m},{k})"
                );
            }
        }
    }

    // Whether the length is 1 and nothing is marked.
    fn silent<P: Pattern>(policy: &P, task: usize, m: u8, k: u8) -> bool {
        (0..64u32)
            .flat_map(|job| [job, u32::MAX - job])
            .all(|job| !policy.mark(task, m, k, job))
            && policy.length(task, m, k) == 1
    }

    fn silent_outside<P: Pattern>(policy: &P) -> bool {
        [
            (30, 1, 1),
            (usize::MAX, 3, 7),
            (0, 0, 7),
            (0, 0, 0),
            (0, 8, 7),
            (0, 1, 33),
            (0, 255, 255),
        ]
        .iter()
        .all(|&(task, m, k)| silent(policy, task, m, k))
    }

    #[test]
    fn outside(rt: HostRuntime) {
        assert!(rt; silent_outside(&Even));
        assert!(rt; silent_outside(&Red));
        assert!(rt; silent_outside(&Shifted::new([9; 30])));
    }
}
