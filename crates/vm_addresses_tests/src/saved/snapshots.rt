//! Guards against values of vm-allocator 0.1.4 that are not read. Its feature `serde`
//! wrote them, including the effects of its bugs. They are texts, because a test cannot read a file.
use super::repaired::assert_repaired;
use super::*;

/// A new space.
const FRESH_SPACE: &str =
    r#"{"address_space":{"start":4096,"end":8191},"interval_tree":{"root":{"key":{"start":4096,"end":8191},
"node_state":"Free","left":null,"right":null,"height":1}}}"#;

/// Three windows in the gap below 4 GiB.
const THREE_WINDOWS: &str =
    r#"{"address_space":{"start":3489660928,"end":4294967295},"interval_tree":{"root":{"key":{"start":3489665024,
"end":3489669119},"node_state":"Allocated","left":{"key":{"start":3489660928,"end":3489665023},
"node_state":"Allocated","left":null,"right":null,"height":1},"right":{"key":{"start":3489669120,
"end":4294901759},"node_state":"Free","left":null,"right":{"key":{"start":4294901760,"end":4294967295},
"node_state":"Allocated","left":null,"right":null,"height":1},"height":2},"height":3}}}"#;

/// A tree that was lost when a range that starts at 1 was freed.
const LOST_TREE: &str = r#"{"address_space":{"start":1,"end":16},"interval_tree":{"root":null}}"#;

/// Two free neighbours of one address each.
const NEIGHBOURS_NOT_JOINED: &str =
    r#"{"address_space":{"start":2,"end":3},"interval_tree":{"root":{"key":{"start":2,"end":2},"node_state":"Free",
"left":null,"right":{"key":{"start":3,"end":3},"node_state":"Free","left":null,"right":null,"height":1},
"height":2}}}"#;

/// A part of an allocated range, allocated again.
const PART_GIVEN_AGAIN: &str =
    r#"{"address_space":{"start":4096,"end":8191},"interval_tree":{"root":{"key":{"start":4352,"end":4607},
"node_state":"Allocated","left":{"key":{"start":4096,"end":4351},"node_state":"Free","left":null,
"right":null,"height":1},"right":{"key":{"start":6144,"end":8191},"node_state":"Free",
"left":{"key":{"start":4608,"end":6143},"node_state":"Free","left":null,"right":null,"height":1},
"right":null,"height":2},"height":3}}}"#;

/// A key outside the space, after the tree was lost.
const KEY_OUTSIDE_SPACE: &str =
    r#"{"address_space":{"start":1,"end":1},"interval_tree":{"root":{"key":{"start":2,"end":2},"node_state":"Free",
"left":null,"right":null,"height":1}}}"#;

/// A range that ends one below `u64::MAX`, removed by a call that returned an error.
const END_AT_LAST_BUT_ONE: &str = r#"{"address_space":{"start":1,"end":18446744073709551615},
"interval_tree":{"root":{"key":{"start":18446744073709551615,"end":18446744073709551615},
"node_state":"Free","left":{"key":{"start":1,"end":18446744073709551613},"node_state":"Free","left":null,
"right":null,"height":1},"right":null,"height":2}}}"#;

/// Sixty ranges, allocated in ascending order.
const SIXTY_SLOTS: &str =
    r#"{"address_space":{"start":1048576,"end":2097151},"interval_tree":{"root":{"key":{"start":1556512,
"end":1556527},"node_state":"Allocated","left":{"key":{"start":1294416,"end":1294431},
"node_state":"Allocated","left":{"key":{"start":1163452,"end":1163455},"node_state":"Allocated",
"left":{"key":{"start":1097996,"end":1098059},"node_state":"Allocated","left":{"key":{"start":1065140,
"end":1065203},"node_state":"Allocated","left":{"key":{"start":1048704,"end":1048767},
"node_state":"Allocated","left":{"key":{"start":1048576,"end":1048703},"node_state":"Free","left":null,
"right":null,"height":1},"right":{"key":{"start":1048768,"end":1065139},"node_state":"Free","left":null,
"right":null,"height":1},"height":2},"right":{"key":{"start":1081720,"end":1081783},
"node_state":"Allocated","left":{"key":{"start":1065204,"end":1081719},"node_state":"Free","left":null,
"right":null,"height":1},"right":{"key":{"start":1081784,"end":1097995},"node_state":"Free","left":null,
"right":null,"height":1},"height":2},"height":3},"right":{"key":{"start":1130828,"end":1130831},
"node_state":"Allocated","left":{"key":{"start":1114348,"end":1114351},"node_state":"Allocated",
"left":{"key":{"start":1098060,"end":1114347},"node_state":"Free","left":null,"right":null,"height":1},
"right":{"key":{"start":1114352,"end":1130827},"node_state":"Free","left":null,"right":null,"height":1},
"height":2},"right":{"key":{"start":1146960,"end":1146963},"node_state":"Allocated",
"left":{"key":{"start":1130832,"end":1146959},"node_state":"Free","left":null,"right":null,"height":1},
"right":{"key":{"start":1146964,"end":1163451},"node_state":"Free","left":null,"right":null,"height":1},
"height":2},"height":3},"height":4},"right":{"key":{"start":1228804,"end":1228807},"node_state":"Allocated",
"left":{"key":{"start":1196308,"end":1196323},"node_state":"Allocated","left":{"key":{"start":1179772,
"end":1179787},"node_state":"Allocated","left":{"key":{"start":1163456,"end":1179771},"node_state":"Free",
"left":null,"right":null,"height":1},"right":{"key":{"start":1179788,"end":1196307},"node_state":"Free",
"left":null,"right":null,"height":1},"height":2},"right":{"key":{"start":1212708,"end":1212711},
"node_state":"Allocated","left":{"key":{"start":1196324,"end":1212707},"node_state":"Free","left":null,
"right":null,"height":1},"right":{"key":{"start":1212712,"end":1228803},"node_state":"Free","left":null,
"right":null,"height":1},"height":2},"height":3},"right":{"key":{"start":1261708,"end":1261723},
"node_state":"Allocated","left":{"key":{"start":1245292,"end":1245355},"node_state":"Allocated",
"left":{"key":{"start":1228808,"end":1245291},"node_state":"Free","left":null,"right":null,"height":1},
"right":{"key":{"start":1245356,"end":1261707},"node_state":"Free","left":null,"right":null,"height":1},
"height":2},"right":{"key":{"start":1278344,"end":1278347},"node_state":"Allocated",
"left":{"key":{"start":1261724,"end":1278343},"node_state":"Free","left":null,"right":null,"height":1},
"right":{"key":{"start":1278348,"end":1294415},"node_state":"Free","left":null,"right":null,"height":1},
"height":2},"height":3},"height":4},"height":5},"right":{"key":{"start":1425508,"end":1425523},
"node_state":"Allocated","left":{"key":{"start":1359872,"end":1359875},"node_state":"Allocated",
"left":{"key":{"start":1327420,"end":1327483},"node_state":"Allocated","left":{"key":{"start":1310788,
"end":1310791},"node_state":"Allocated","left":{"key":{"start":1294432,"end":1310787},"node_state":"Free",
"left":null,"right":null,"height":1},"right":{"key":{"start":1310792,"end":1327419},"node_state":"Free",
"left":null,"right":null,"height":1},"height":2},"right":{"key":{"start":1343552,"end":1343567},
"node_state":"Allocated","left":{"key":{"start":1327484,"end":1343551},"node_state":"Free","left":null,
"right":null,"height":1},"right":{"key":{"start":1343568,"end":1359871},"node_state":"Free","left":null,
"right":null,"height":1},"height":2},"height":3},"right":{"key":{"start":1392724,"end":1392727},
"node_state":"Allocated","left":{"key":{"start":1376360,"end":1376363},"node_state":"Allocated",
"left":{"key":{"start":1359876,"end":1376359},"node_state":"Free","left":null,"right":null,"height":1},
"right":{"key":{"start":1376364,"end":1392723},"node_state":"Free","left":null,"right":null,"height":1},
"height":2},"right":{"key":{"start":1409172,"end":1409175},"node_state":"Allocated",
"left":{"key":{"start":1392728,"end":1409171},"node_state":"Free","left":null,"right":null,"height":1},
"right":{"key":{"start":1409176,"end":1425507},"node_state":"Free","left":null,"right":null,"height":1},
"height":2},"height":3},"height":4},"right":{"key":{"start":1491140,"end":1491143},"node_state":"Allocated",
"left":{"key":{"start":1458280,"end":1458343},"node_state":"Allocated","left":{"key":{"start":1442136,
"end":1442199},"node_state":"Allocated","left":{"key":{"start":1425524,"end":1442135},"node_state":"Free",
"left":null,"right":null,"height":1},"right":{"key":{"start":1442200,"end":1458279},"node_state":"Free",
"left":null,"right":null,"height":1},"height":2},"right":{"key":{"start":1474912,"end":1474915},
"node_state":"Allocated","left":{"key":{"start":1458344,"end":1474911},"node_state":"Free","left":null,
"right":null,"height":1},"right":{"key":{"start":1474916,"end":1491139},"node_state":"Free","left":null,
"right":null,"height":1},"height":2},"height":3},"right":{"key":{"start":1523924,"end":1523939},
"node_state":"Allocated","left":{"key":{"start":1507336,"end":1507351},"node_state":"Allocated",
"left":{"key":{"start":1491144,"end":1507335},"node_state":"Free","left":null,"right":null,"height":1},
"right":{"key":{"start":1507352,"end":1523923},"node_state":"Free","left":null,"right":null,"height":1},
"height":2},"right":{"key":{"start":1540168,"end":1540171},"node_state":"Allocated",
"left":{"key":{"start":1523940,"end":1540167},"node_state":"Free","left":null,"right":null,"height":1},
"right":{"key":{"start":1540172,"end":1556511},"node_state":"Free","left":null,"right":null,"height":1},
"height":2},"height":3},"height":4},"height":5},"height":6},"right":{"key":{"start":1818816,"end":1818831},
"node_state":"Allocated","left":{"key":{"start":1687712,"end":1687775},"node_state":"Allocated",
"left":{"key":{"start":1622376,"end":1622439},"node_state":"Allocated","left":{"key":{"start":1589548,
"end":1589611},"node_state":"Allocated","left":{"key":{"start":1573016,"end":1573031},
"node_state":"Allocated","left":{"key":{"start":1556528,"end":1573015},"node_state":"Free","left":null,
"right":null,"height":1},"right":{"key":{"start":1573032,"end":1589547},"node_state":"Free","left":null,
"right":null,"height":1},"height":2},"right":{"key":{"start":1605936,"end":1605939},
"node_state":"Allocated","left":{"key":{"start":1589612,"end":1605935},"node_state":"Free","left":null,
"right":null,"height":1},"right":{"key":{"start":1605940,"end":1622375},"node_state":"Free","left":null,
"right":null,"height":1},"height":2},"height":3},"right":{"key":{"start":1654964,"end":1654979},
"node_state":"Allocated","left":{"key":{"start":1638432,"end":1638447},"node_state":"Allocated",
"left":{"key":{"start":1622440,"end":1638431},"node_state":"Free","left":null,"right":null,"height":1},
"right":{"key":{"start":1638448,"end":1654963},"node_state":"Free","left":null,"right":null,"height":1},
"height":2},"right":{"key":{"start":1671412,"end":1671427},"node_state":"Allocated",
"left":{"key":{"start":1654980,"end":1671411},"node_state":"Free","left":null,"right":null,"height":1},
"right":{"key":{"start":1671428,"end":1687711},"node_state":"Free","left":null,"right":null,"height":1},
"height":2},"height":3},"height":4},"right":{"key":{"start":1753096,"end":1753111},"node_state":"Allocated",
"left":{"key":{"start":1720680,"end":1720695},"node_state":"Allocated","left":{"key":{"start":1704180,
"end":1704183},"node_state":"Allocated","left":{"key":{"start":1687776,"end":1704179},"node_state":"Free",
"left":null,"right":null,"height":1},"right":{"key":{"start":1704184,"end":1720679},"node_state":"Free",
"left":null,"right":null,"height":1},"height":2},"right":{"key":{"start":1736732,"end":1736735},
"node_state":"Allocated","left":{"key":{"start":1720696,"end":1736731},"node_state":"Free","left":null,
"right":null,"height":1},"right":{"key":{"start":1736736,"end":1753095},"node_state":"Free","left":null,
"right":null,"height":1},"height":2},"height":3},"right":{"key":{"start":1785864,"end":1785879},
"node_state":"Allocated","left":{"key":{"start":1769652,"end":1769715},"node_state":"Allocated",
"left":{"key":{"start":1753112,"end":1769651},"node_state":"Free","left":null,"right":null,"height":1},
"right":{"key":{"start":1769716,"end":1785863},"node_state":"Free","left":null,"right":null,"height":1},
"height":2},"right":{"key":{"start":1802452,"end":1802515},"node_state":"Allocated",
"left":{"key":{"start":1785880,"end":1802451},"node_state":"Free","left":null,"right":null,"height":1},
"right":{"key":{"start":1802516,"end":1818815},"node_state":"Free","left":null,"right":null,"height":1},
"height":2},"height":3},"height":4},"height":5},"right":{"key":{"start":1949964,"end":1949979},
"node_state":"Allocated","left":{"key":{"start":1884260,"end":1884323},"node_state":"Allocated",
"left":{"key":{"start":1851412,"end":1851427},"node_state":"Allocated","left":{"key":{"start":1835012,
"end":1835075},"node_state":"Allocated","left":{"key":{"start":1818832,"end":1835011},"node_state":"Free",
"left":null,"right":null,"height":1},"right":{"key":{"start":1835076,"end":1851411},"node_state":"Free",
"left":null,"right":null,"height":1},"height":2},"right":{"key":{"start":1867868,"end":1867931},
"node_state":"Allocated","left":{"key":{"start":1851428,"end":1867867},"node_state":"Free","left":null,
"right":null,"height":1},"right":{"key":{"start":1867932,"end":1884259},"node_state":"Free","left":null,
"right":null,"height":1},"height":2},"height":3},"right":{"key":{"start":1917164,"end":1917167},
"node_state":"Allocated","left":{"key":{"start":1900928,"end":1900931},"node_state":"Allocated",
"left":{"key":{"start":1884324,"end":1900927},"node_state":"Free","left":null,"right":null,"height":1},
"right":{"key":{"start":1900932,"end":1917163},"node_state":"Free","left":null,"right":null,"height":1},
"height":2},"right":{"key":{"start":1933572,"end":1933587},"node_state":"Allocated",
"left":{"key":{"start":1917168,"end":1933571},"node_state":"Free","left":null,"right":null,"height":1},
"right":{"key":{"start":1933588,"end":1949963},"node_state":"Free","left":null,"right":null,"height":1},
"height":2},"height":3},"height":4},"right":{"key":{"start":1982516,"end":1982531},"node_state":"Allocated",
"left":{"key":{"start":1966476,"end":1966491},"node_state":"Allocated","left":{"key":{"start":1949980,
"end":1966475},"node_state":"Free","left":null,"right":null,"height":1},"right":{"key":{"start":1966492,
"end":1982515},"node_state":"Free","left":null,"right":null,"height":1},"height":2},
"right":{"key":{"start":1999228,"end":1999291},"node_state":"Allocated","left":{"key":{"start":1982532,
"end":1999227},"node_state":"Free","left":null,"right":null,"height":1},"right":{"key":{"start":2015380,
"end":2015395},"node_state":"Allocated","left":{"key":{"start":1999292,"end":2015379},"node_state":"Free",
"left":null,"right":null,"height":1},"right":{"key":{"start":2015396,"end":2097151},"node_state":"Free",
"left":null,"right":null,"height":1},"height":2},"height":3},"height":4},"height":5},"height":6},
"height":7}}}"#;

/// The same ranges, with every second one freed.
const EVERY_SECOND_FREED: &str =
    r#"{"address_space":{"start":1048576,"end":2097151},"interval_tree":{"root":{"key":{"start":1573016,
"end":1573031},"node_state":"Allocated","left":{"key":{"start":1310788,"end":1310791},
"node_state":"Allocated","left":{"key":{"start":1179772,"end":1179787},"node_state":"Allocated",
"left":{"key":{"start":1114348,"end":1114351},"node_state":"Allocated","left":{"key":{"start":1048704,
"end":1048767},"node_state":"Allocated","left":{"key":{"start":1048576,"end":1048703},"node_state":"Free",
"left":null,"right":null,"height":1},"right":{"key":{"start":1081720,"end":1081783},
"node_state":"Allocated","left":{"key":{"start":1048768,"end":1081719},"node_state":"Free","left":null,
"right":null,"height":1},"right":{"key":{"start":1081784,"end":1114347},"node_state":"Free","left":null,
"right":null,"height":1},"height":2},"height":3},"right":{"key":{"start":1146960,"end":1146963},
"node_state":"Allocated","left":{"key":{"start":1114352,"end":1146959},"node_state":"Free","left":null,
"right":null,"height":1},"right":{"key":{"start":1146964,"end":1179771},"node_state":"Free","left":null,
"right":null,"height":1},"height":2},"height":4},"right":{"key":{"start":1245292,"end":1245355},
"node_state":"Allocated","left":{"key":{"start":1212708,"end":1212711},"node_state":"Allocated",
"left":{"key":{"start":1179788,"end":1212707},"node_state":"Free","left":null,"right":null,"height":1},
"right":{"key":{"start":1212712,"end":1245291},"node_state":"Free","left":null,"right":null,"height":1},
"height":2},"right":{"key":{"start":1278344,"end":1278347},"node_state":"Allocated",
"left":{"key":{"start":1245356,"end":1278343},"node_state":"Free","left":null,"right":null,"height":1},
"right":{"key":{"start":1278348,"end":1310787},"node_state":"Free","left":null,"right":null,"height":1},
"height":2},"height":3},"height":5},"right":{"key":{"start":1442136,"end":1442199},"node_state":"Allocated",
"left":{"key":{"start":1376360,"end":1376363},"node_state":"Allocated","left":{"key":{"start":1343552,
"end":1343567},"node_state":"Allocated","left":{"key":{"start":1310792,"end":1343551},"node_state":"Free",
"left":null,"right":null,"height":1},"right":{"key":{"start":1343568,"end":1376359},"node_state":"Free",
"left":null,"right":null,"height":1},"height":2},"right":{"key":{"start":1409172,"end":1409175},
"node_state":"Allocated","left":{"key":{"start":1376364,"end":1409171},"node_state":"Free","left":null,
"right":null,"height":1},"right":{"key":{"start":1409176,"end":1442135},"node_state":"Free","left":null,
"right":null,"height":1},"height":2},"height":3},"right":{"key":{"start":1507336,"end":1507351},
"node_state":"Allocated","left":{"key":{"start":1474912,"end":1474915},"node_state":"Allocated",
"left":{"key":{"start":1442200,"end":1474911},"node_state":"Free","left":null,"right":null,"height":1},
"right":{"key":{"start":1474916,"end":1507335},"node_state":"Free","left":null,"right":null,"height":1},
"height":2},"right":{"key":{"start":1540168,"end":1540171},"node_state":"Allocated",
"left":{"key":{"start":1507352,"end":1540167},"node_state":"Free","left":null,"right":null,"height":1},
"right":{"key":{"start":1540172,"end":1573015},"node_state":"Free","left":null,"right":null,"height":1},
"height":2},"height":3},"height":4},"height":6},"right":{"key":{"start":1835012,"end":1835075},
"node_state":"Allocated","left":{"key":{"start":1704180,"end":1704183},"node_state":"Allocated",
"left":{"key":{"start":1638432,"end":1638447},"node_state":"Allocated","left":{"key":{"start":1605936,
"end":1605939},"node_state":"Allocated","left":{"key":{"start":1573032,"end":1605935},"node_state":"Free",
"left":null,"right":null,"height":1},"right":{"key":{"start":1605940,"end":1638431},"node_state":"Free",
"left":null,"right":null,"height":1},"height":2},"right":{"key":{"start":1671412,"end":1671427},
"node_state":"Allocated","left":{"key":{"start":1638448,"end":1671411},"node_state":"Free","left":null,
"right":null,"height":1},"right":{"key":{"start":1671428,"end":1704179},"node_state":"Free","left":null,
"right":null,"height":1},"height":2},"height":3},"right":{"key":{"start":1769652,"end":1769715},
"node_state":"Allocated","left":{"key":{"start":1736732,"end":1736735},"node_state":"Allocated",
"left":{"key":{"start":1704184,"end":1736731},"node_state":"Free","left":null,"right":null,"height":1},
"right":{"key":{"start":1736736,"end":1769651},"node_state":"Free","left":null,"right":null,"height":1},
"height":2},"right":{"key":{"start":1802452,"end":1802515},"node_state":"Allocated",
"left":{"key":{"start":1769716,"end":1802451},"node_state":"Free","left":null,"right":null,"height":1},
"right":{"key":{"start":1802516,"end":1835011},"node_state":"Free","left":null,"right":null,"height":1},
"height":2},"height":3},"height":4},"right":{"key":{"start":1966476,"end":1966491},"node_state":"Allocated",
"left":{"key":{"start":1900928,"end":1900931},"node_state":"Allocated","left":{"key":{"start":1867868,
"end":1867931},"node_state":"Allocated","left":{"key":{"start":1835076,"end":1867867},"node_state":"Free",
"left":null,"right":null,"height":1},"right":{"key":{"start":1867932,"end":1900927},"node_state":"Free",
"left":null,"right":null,"height":1},"height":2},"right":{"key":{"start":1933572,"end":1933587},
"node_state":"Allocated","left":{"key":{"start":1900932,"end":1933571},"node_state":"Free","left":null,
"right":null,"height":1},"right":{"key":{"start":1933588,"end":1966475},"node_state":"Free","left":null,
"right":null,"height":1},"height":2},"height":3},"right":{"key":{"start":1999228,"end":1999291},
"node_state":"Allocated","left":{"key":{"start":1966492,"end":1999227},"node_state":"Free","left":null,
"right":null,"height":1},"right":{"key":{"start":1999292,"end":2097151},"node_state":"Free","left":null,
"right":null,"height":1},"height":2},"height":4},"height":5},"height":7}}}"#;

/// Checks that this number of ranges is allocated, including these as the first. `text` is the text
/// that was read.
fn expect_held(
    rt: &impl Abort,
    space: &AddressAllocator,
    count: u64,
    first: &[(u64, u64)],
    text: &str,
) {
    expect_eq(rt, space.held_count(), count, text);
    for (held, want) in space.held_ranges().zip(first) {
        expect_eq(rt, &(held.start(), held.end()), want, text);
    }
}

/// Checks that the text encodes an allocator with this number of allocated ranges, including these
/// as the first, and that an equal one is read from its own value. The value can have another shape
/// than the text.
fn expect_read(rt: &(impl Abort + AllocGlobal), text: &str, count: u64, first: &[(u64, u64)]) {
    let value = parsed(rt, text);
    let space = read(rt, &value).expect(rt, text);
    expect_held(rt, &space, count, first, text);
    expect_space(rt, read(rt, &saved(rt, &space)), &space, text);
}

#[test]
fn read_as_the_other_crate_wrote(rt: HostRuntime) {
    let windows = [
        (3489660928, 3489665023),
        (3489665024, 3489669119),
        (4294901760, 4294967295),
    ];
    let slots = [
        (1048704, 1048767),
        (1065140, 1065203),
        (1081720, 1081783),
        (1097996, 1098059),
    ];
    let every_second = [
        (1048704, 1048767),
        (1081720, 1081783),
        (1114348, 1114351),
        (1146960, 1146963),
    ];
    expect_read(&rt, FRESH_SPACE, 0, &[]);
    expect_read(&rt, THREE_WINDOWS, 3, &windows);
    expect_read(&rt, SIXTY_SLOTS, 60, &slots);
    expect_read(&rt, EVERY_SECOND_FREED, 30, &every_second);
}

#[test]
fn faults_of_the_other_crate(rt: HostRuntime) {
    for (text, want) in [
        (LOST_TREE, Some((1, 16, &[][..]))),
        (NEIGHBOURS_NOT_JOINED, Some((2, 2, &[][..]))),
        (PART_GIVEN_AGAIN, Some((4096, 4096, &[(4352, 4607)][..]))),
        (KEY_OUTSIDE_SPACE, None),
        (END_AT_LAST_BUT_ONE, Some((1, u64::MAX, &[][..]))),
    ] {
        assert_repaired(&rt, text, want);
    }
}
