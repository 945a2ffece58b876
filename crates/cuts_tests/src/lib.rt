// Tests of cuts: the relay's test beside a slow one, on every chart of up to five craft, and how many closures it computes.
#![tactic(auto)]

#[cfg(test)]
mod counted;
#[cfg(test)]
mod slow;

#[cfg(test)]
mod tests {
    use crate::counted::{closures, most_on_circulants};
    use crate::slow::all_agree;
    use charts::Chart;
    use cuts::{direct_test, open_direct, open_relay, parted};
    use refusals::{Layer, Refusal};

    // Every chart of so many craft is one of these.
    const OF_TWO: u16 = 2;

    const OF_THREE: u16 = 8;

    const OF_FOUR: u16 = 64;

    const OF_FIVE: u16 = 1024;

    // The most closures that the test of a chart of eight craft computes with two faulty, seen on a chart that passes: 8 pairs that are not linked, and 57 sets of at most 4 of 6 others for each. A craft with fewer than 5 neighbours is cut off by them, so until a pair is refused each craft lacks at most 2 links.
    const MOST_CLOSURES: u32 = 456;

    #[test]
    fn none_faulty(rt: HostRuntime) {
        assert!(rt; all_agree(2, 0, OF_TWO));
        assert!(rt; all_agree(3, 0, OF_THREE));
        assert!(rt; all_agree(4, 0, OF_FOUR));
        assert!(rt; all_agree(5, 0, OF_FIVE));
    }

    #[test]
    fn one_faulty(rt: HostRuntime) {
        assert!(rt; all_agree(4, 1, OF_FOUR));
        assert!(rt; all_agree(5, 1, OF_FIVE));
    }

    #[test]
    fn closures_of_eight(rt: HostRuntime) {
        assert_eq!(rt; most_on_circulants(2), MOST_CLOSURES);
        // not linked are: none; four pairs; a ring; two rings of four, which four craft cut apart; all
        assert_eq!(rt; closures(&[254, 253, 251, 247, 239, 223, 191, 127], 2), 0);
        assert_eq!(rt; closures(&[252, 252, 243, 243, 207, 207, 63, 63], 2), 228);
        assert_eq!(rt;
            closures(&[124, 248, 241, 227, 199, 143, 31, 62], 2),
            MOST_CLOSURES
        );
        assert_eq!(rt; closures(&[244, 248, 241, 242, 79, 143, 31, 47], 2), 57);
        assert_eq!(rt; closures(&[0; 8], 2), 1);
    }

    #[test]
    fn refused_in_order(rt: HostRuntime) {
        let size = Layer::Carriers.refuses(Refusal::Size(3));
        assert_eq!(rt; open_relay(&[2, 1, 0], 1).err(), Some(size));
        let row = Layer::Carriers.refuses(Refusal::Row(2));
        assert_eq!(rt; open_direct(&[2, 1, 8, 0], 1).err(), Some(row));
        let pair = Layer::Carriers.refuses(Refusal::Thin(0, 1, 0));
        assert_eq!(rt; open_direct(&[12, 12, 11, 7], 1).err(), Some(pair));
        assert!(rt; open_direct(&[14, 13, 11, 7], 1).is_ok());
    }

    #[test]
    fn asked_again(rt: HostRuntime) {
        let path = Chart::new(&[2, 5, 10, 4], 1).expect(&rt, "a path of four craft");
        assert!(rt; !parted(&path, 0, 0, 3) && !parted(&path, 0, 2, 2));
        assert!(rt; parted(&path, 2, 0, 3) && parted(&path, 1, 0, 3));
        assert!(rt; parted(&path, 0, 0, 4) && parted(&path, 0, 4, 4));
        assert!(rt; parted(&path, 0, 255, 255));
        // a chart of four made with one faulty, tested with two
        let size = Layer::Carriers.refuses(Refusal::Size(4));
        assert_eq!(rt; direct_test(path, 2).err(), Some(size));
    }
}
