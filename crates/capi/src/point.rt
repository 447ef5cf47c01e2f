// A point as a struct of numbers with C's layout, and back.
ghost use Rattle.std.specs.Prelude.{◌≡◌};
ghost use Rattle.fields.specs.Refusals.{by_number};
ghost use Rattle.points.specs.Points.{Fields, Refused};
ghost use Rattle.reader.specs.OnePoint.{At};
ghost use Rattle.reader.specs.OnePoint as one;
ghost use Rattle.capi.specs.PointAnswers.{found_point, no_point, point_numbers, decoded_numbers, given_point};

use fields::refusal::Refusal;
use points::Point;

// The flags are 0 or 1 in an answer; in a point that is given, anything but 0 is yes.
#[repr(C)]
#[derive(Clone, Copy, Debug, Default, PartialEq, Eq)]
pub struct las_point {
    pub number: u64,
    pub place: u64,
    pub gps_time: u64,
    pub x: i32,
    pub y: i32,
    pub z: i32,
    pub intensity: u16,
    pub source_id: u16,
    pub red: u16,
    pub green: u16,
    pub blue: u16,
    pub return_number: u8,
    pub returns: u8,
    pub classification: u8,
    pub user_data: u8,
    pub scan_direction: u8,
    pub edge: u8,
    pub scan_angle: i8,
    pub synthetic: u8,
    pub key_point: u8,
    pub withheld: u8,
}

// The numbers of a point and of its record's place.
// (No `From`: it takes several values.)
fn found_point(place: usize, point: Point) -> las_point
    ensures { result ≡ found_point place point }
{
    las_point {
        number: 0,
        place: place as u64,
        gps_time: point.gps_time,
        x: point.x,
        y: point.y,
        z: point.z,
        intensity: point.intensity,
        source_id: point.source_id,
        red: point.red,
        green: point.green,
        blue: point.blue,
        return_number: point.return_number,
        returns: point.returns,
        classification: point.classification,
        user_data: point.user_data,
        scan_direction: point.scan_direction as u8,
        edge: point.edge as u8,
        scan_angle: point.scan_angle,
        synthetic: point.synthetic as u8,
        key_point: point.key_point as u8,
        withheld: point.withheld as u8,
    }
}

// The numbers of a refusal: all but its own are 0.
#[tactic(auto, unfolding(crate::specs::PointAnswers::no_point))]
fn refused_point(number: u64) -> las_point
    ensures { result ≡ no_point number }
{
    las_point {
        number,
        ..las_point::default()
    }
}

// The numbers of one point of a file.
impl From<Result<(usize, Point), Refusal>> for las_point {
    ghost from_gives = { λ answer numbers. numbers ≡ point_numbers (by_number (λ x. At x.0 x.1) one.Refused answer) };

    fn from(answer: Result<(usize, Point), Refusal>) -> las_point {
        match answer {
            Ok((place, point)) => found_point(place, point),
            Err(refusal) => refused_point(refusal.number()),
        }
    }
}

// The numbers of a point that was decoded, which lies at no place.
impl From<Result<Point, Refusal>> for las_point {
    ghost from_gives = { λ answer numbers. numbers ≡ decoded_numbers (by_number Fields Refused answer) };

    fn from(answer: Result<Point, Refusal>) -> las_point {
        match answer {
            Ok(point) => found_point(0, point),
            Err(refused) => refused_point(refused.number()),
        }
    }
}

// The point that is given to be encoded: its number and place are not looked at.
impl From<las_point> for Point {
    ghost from_gives = { λ point given. given ≡ given_point point };

    fn from(point: las_point) -> Point {
        Point {
            x: point.x,
            y: point.y,
            z: point.z,
            intensity: point.intensity,
            return_number: point.return_number,
            returns: point.returns,
            scan_direction: point.scan_direction != 0,
            edge: point.edge != 0,
            classification: point.classification,
            scan_angle: point.scan_angle,
            user_data: point.user_data,
            source_id: point.source_id,
            gps_time: point.gps_time,
            red: point.red,
            green: point.green,
            blue: point.blue,
            synthetic: point.synthetic != 0,
            key_point: point.key_point != 0,
            withheld: point.withheld != 0,
        }
    }
}
